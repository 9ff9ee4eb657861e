// Carried over from src/yuv_support.rs: ranges, and channel and chroma places; its matrices are the crate `matrices`, its weights `weights`.
#![tactic(auto)]

pub mod channels;
pub mod ranges;
