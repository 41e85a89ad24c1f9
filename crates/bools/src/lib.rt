// Choices and tests: what the contracts and proofs of the packages above decide with; definitions and laws, no function.
#![tactic(auto)]
