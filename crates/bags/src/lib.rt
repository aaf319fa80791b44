// Bags and views of a memory: definitions and laws, in specs/ and proofs/. There is no code to run.
#![tactic(auto)]
