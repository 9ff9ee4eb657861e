// The rows of a source and their pixels: what converting and checking a frame share.
#![tactic(auto)]

pub mod pixels;
pub mod rows;
