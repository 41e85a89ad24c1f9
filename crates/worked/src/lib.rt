// Worked cases of the definitions, computed by the prover, section by section.
#![tactic(auto)]
