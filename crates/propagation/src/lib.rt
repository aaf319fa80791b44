// The screening algorithm: crossing out options until what is left is closed.
#![tactic(auto)]

mod counts;
mod domains;
mod lower;
mod marks;
pub mod propagate;
mod revise;
mod screening;
mod spread;
mod supports;
mod tests;
mod words;
