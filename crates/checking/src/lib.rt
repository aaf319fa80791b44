// Whether a set is consistent, and if not, which option fails on which item.
#![tactic(auto)]

pub mod call;
pub mod conditions;
