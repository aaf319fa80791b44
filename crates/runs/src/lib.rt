// The calls of a session as values, what each does, and the law that holds of every run.
#![tactic(auto)]

pub mod call;
pub mod law;
