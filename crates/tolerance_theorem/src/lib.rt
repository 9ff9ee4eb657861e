// Every code that accepted settings give is within the tolerance. No code: proofs/ has the theorem.
#![tactic(auto)]
