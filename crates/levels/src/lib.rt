// The three levels of consistency, and the theory that every screening rests on.
#![tactic(auto)]

pub mod level;
pub mod theory;
pub mod words;
