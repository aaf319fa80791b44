// Tests of the checking calls over small junctions. The crate has no code of its own.
#![tactic(auto)]

#[cfg(test)]
mod sample;
#[cfg(test)]
mod triangle;
