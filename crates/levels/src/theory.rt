// The partner count of a level, and the theorems about it; a function with an empty body carries one.
ghost use Rattle.std.specs.Prelude.{◌≡◌};
ghost use Rattle.levels.specs.Counts.{count_of};
ghost use Rattle.levels.specs.Theory.{CountsTheory, IsCount, LevelsTheory};

use crate::level::Level;

impl Level {
    // The partner count that asks the same of every option.
    pub fn partner_count(self) -> u8
        ensures value { result ≡ count_of self }
        ensures same { IsCount self result }
    {
        match self {
            Level::Arc => 0,
            Level::RestrictedPath => 1,
            Level::MaxRestrictedPath => 32,
        }
    }
}

// The theory of sets that are closed under a partner count.
pub fn counts_stand()
    ensures { CountsTheory }
{}

// The same of the three levels.
pub fn levels_stand()
    ensures { LevelsTheory }
{}
