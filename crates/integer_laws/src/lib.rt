// Laws of signed numbers, shifts and machine integers, for the proofs of the crates above. No code: proofs/ has them.
#![tactic(auto)]
