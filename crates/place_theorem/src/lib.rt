// The place that refusal 10 carries is the first sample that is too large, for convert and for check. No code: proofs/ has the theorems.
#![tactic(auto)]
