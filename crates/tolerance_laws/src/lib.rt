// Laws of document 01's tolerance and of its blocks, for the proofs of the crates above. No code: proofs/ has them.
#![tactic(auto)]
