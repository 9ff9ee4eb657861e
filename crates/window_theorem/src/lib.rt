// A window that is the whole frame is what a frame was before there were windows, a window has the outcome of its pixels cut out, and nothing
// outside a window has a say. No code: proofs/ has the theorems.
#![tactic(auto)]
