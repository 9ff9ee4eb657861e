// A ring's outcomes: one for each input, convert's own for one frame, and what each frame's part is left with. No code: proofs/ has the theorems.
#![tactic(auto)]
