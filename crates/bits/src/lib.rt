// Bits of words, and the tests that every definition above is written with.
#![tactic(auto)]

pub mod bit;
