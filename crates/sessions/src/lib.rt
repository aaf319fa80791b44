// Sessions: a rule book with the options struck and kept so far.
#![tactic(auto)]

pub mod edits;
pub mod hint;
pub mod marks;
pub mod options;
pub mod perform;
pub mod screen;
pub mod session;
pub mod settled;
pub mod start;
