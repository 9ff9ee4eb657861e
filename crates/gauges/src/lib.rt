// The test of a well-formed word against its exact fraction without unpacking it.
#![tactic(auto)]

pub mod gauge;
pub mod near;
