// What the programs share: cases of settings, frames and buffers by numbers, and sweeps of them; the buffers drawn; lines of text.
#![tactic(auto)]

pub mod case;
pub mod draw;
pub mod planes;
pub mod sweeps;
pub mod text;
