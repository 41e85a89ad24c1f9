// What the run of a converted capture does: definitions and proofs, no function.
#![tactic(auto)]
