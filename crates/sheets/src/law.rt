// The laws of sheets, on the contract of a function that carries them.
ghost use Rattle.sheets.specs.Law.{Checked, Faults, OnlyOne, OnlyTexts, ReadsBack, WrittenBack};

// A sheet is accepted exactly when it is the text of a right junction, and is the only one for it; a refusal names the
// first faulty line.
pub fn sheets_stand()
    ensures texts { OnlyTexts }
    ensures back { ReadsBack }
    ensures one { OnlyOne }
    ensures checked { Checked }
    ensures written { WrittenBack }
    ensures faults { Faults }
{}
