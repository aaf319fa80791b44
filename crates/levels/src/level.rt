// The levels by name and number.
ghost use Rattle.std.specs.Prelude.{◌≡◌};
ghost use Rattle.levels.specs.Counts.{level_numbered};

use meaning::refusal::Refusal;
use std::fmt;

#[derive(Clone, Copy, PartialEq, Eq, Debug)]
pub enum Level {
    Arc,
    RestrictedPath,
    MaxRestrictedPath,
}

impl TryFrom<u32> for Level {
    type Error = Refusal;

    ghost try_from_gives = { λ number result. result ≡ level_numbered number };

    fn try_from(number: u32) -> Result<Level, Refusal>
        ensures { result ≡ level_numbered number }
    {
        match number {
            0 => Ok(Level::Arc),
            1 => Ok(Level::RestrictedPath),
            2 => Ok(Level::MaxRestrictedPath),
            _ => Err(Refusal::NoSuchLevel),
        }
    }
}

impl fmt::Display for Level {
    fn fmt<W: fmt::Write>(&self, f: &mut fmt::Formatter<W>) -> fmt::Result {
        f.write_str(match self {
            Level::Arc => "arc consistency",
            Level::RestrictedPath => "restricted path consistency",
            Level::MaxRestrictedPath => "max-restricted path consistency",
        })
    }
}
