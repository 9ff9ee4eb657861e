// The theorems of a frame turned back to RGB.
#![tactic(auto)]
