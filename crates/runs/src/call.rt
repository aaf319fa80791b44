// A call of a session that is yet to be made, and what a session said to it.
use meaning::refusal::Refusal;
use std::fmt;

#[derive(Clone, Copy, PartialEq, Eq, Debug)]
pub enum Call {
    Strike { item: usize, option: usize },
    Choose { item: usize, option: usize },
    Restore { item: usize, option: usize },
    // Any number: an unknown level is refused in its turn.
    Screen { level: u32 },
}

impl fmt::Display for Call {
    fn fmt<W: fmt::Write>(&self, f: &mut fmt::Formatter<W>) -> fmt::Result {
        match *self {
            Call::Strike { item, option } => write!(f, "strike option {option} of item {item}"),
            Call::Choose { item, option } => write!(f, "choose option {option} of item {item}"),
            Call::Restore { item, option } => write!(f, "restore option {option} of item {item}"),
            Call::Screen { level } => write!(f, "screen at level {level}"),
        }
    }
}

// How many options a screening kept, and how many it crossed out.
#[derive(Clone, Copy, PartialEq, Eq, Debug)]
pub struct Outcome {
    pub kept: usize,
    pub crossed: usize,
}

impl fmt::Display for Outcome {
    fn fmt<W: fmt::Write>(&self, f: &mut fmt::Formatter<W>) -> fmt::Result {
        write!(
            f,
            "keeps {} options, crosses out {}",
            self.kept, self.crossed
        )
    }
}

// A screening is answered by its outcome, an edit by nothing more than that it was done.
pub type Answer = Result<Option<Outcome>, Refusal>;
