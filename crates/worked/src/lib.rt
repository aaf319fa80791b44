// Nine worked junctions, on the contract of a function that carries them.
#![tactic(auto)]

ghost use Rattle.worked.specs.Nine.{Nine};

// What every session over the nine junctions answers.
pub fn nine_stand()
    ensures { Nine }
{}
