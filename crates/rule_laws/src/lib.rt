// Laws of document 01's definitions that belong to no one layer. No code: specs/ has what they say, proofs/ why it holds.
#![tactic(auto)]
