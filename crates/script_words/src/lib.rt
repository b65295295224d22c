//! The words of a script of events: numbers, addresses, prefixes and bytes, and why a line is refused.
#![tactic(auto)]

mod addresses;
mod problem;
mod reading;
mod words;

pub use addresses::{Address, Peer, Prefix};
pub use problem::Problem;
pub use reading::{read_byte, read_number};
pub use words::Words;
