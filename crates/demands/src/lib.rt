// The three demands, of what the library's functions return: definitions and proofs, no function.
#![tactic(auto)]
