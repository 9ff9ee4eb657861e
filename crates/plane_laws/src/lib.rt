// Laws of planes, tables, first places and tests that every walk over a frame needs. No code: proofs/ has them.
#![tactic(auto)]
