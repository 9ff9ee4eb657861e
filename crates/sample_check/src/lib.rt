// The check of one element of a plane: the test of a sample by its exact fraction.
#![tactic(auto)]

pub mod row;
pub mod sample;
