// The numbers of document 01 at their edges, computed by the prover, section by section.
#![tactic(auto)]
