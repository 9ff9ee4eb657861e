// The five weights of all 910 named settings are 0 to 4·2^P, computed in the prover.
#![tactic(auto)]
