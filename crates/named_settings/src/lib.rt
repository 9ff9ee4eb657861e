// Refusal 4 over the 910 named settings. No code: proofs/ has the theorem, by computation.
#![tactic(auto)]
