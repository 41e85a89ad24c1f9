// The one-counter sheet and the theorems about lists of calls: definitions and proofs, no function.
#![tactic(auto)]
