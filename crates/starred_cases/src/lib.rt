// The starred bench checks and the example trace, computed by the prover.
#![tactic(auto)]
