// What convert writes, check accepts. No code: proofs/ has the theorem.
#![tactic(auto)]
