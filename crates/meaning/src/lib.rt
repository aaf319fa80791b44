// What a rule book means, the parts that books are made of, and why a call says no.
#![tactic(auto)]

pub mod parts;
pub mod refusal;
