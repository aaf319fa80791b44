// Waiting lists: elements that wait, in memory that the caller lends.
#![tactic(auto)]

pub mod choice;
pub mod newest;
pub mod oldest;
#[cfg(test)]
mod tests;
pub mod waiting;
