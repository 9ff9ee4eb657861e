// Laws of the float steps that lead to the nine weights. No code: proofs/ has them.
#![tactic(auto)]
