//! Takes frames out of an input that comes in pieces.
#![tactic(auto)]

pub mod buffer;
pub mod turns;
