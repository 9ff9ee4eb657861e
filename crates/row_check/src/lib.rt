// The quick check of a whole row: how far from its start all samples are surely right.
#![tactic(auto)]

pub mod passed;
