// One sample: the code of a pixel, and the stored word.
#![tactic(auto)]

pub mod code;
pub mod word;
