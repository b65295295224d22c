//! Parts of the programs: the input, frame by frame, and the lines that tell of faults.
#![tactic(auto)]

mod inlet;
mod lines;

pub use inlet::Inlet;
pub use lines::FaultLine;
