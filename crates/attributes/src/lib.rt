//! The path attributes of an UPDATE.
#![tactic(auto)]

mod as_paths;
mod kinds;
mod numbers;
mod values;

pub use kinds::attribute_size;
pub use peers::Peer;
use route::{Communities, Path};
pub use values::read_attribute;

/// The types of attributes. One that is not known is of a kind of its own: with any flags and any length.
#[derive(Clone, Copy, Debug, PartialEq, Eq)]
pub enum Kind {
    Origin,
    AsPath,
    NextHop,
    Med,
    LocalPref,
    Communities,
    Other,
}

/// What is used of an attribute.
#[derive(Clone, Copy)]
pub enum Value {
    Path(Path),
    NextHop,
    Med(u32),
    Communities(Communities),
    Unused,
}
