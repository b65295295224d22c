//! The kinds of frames, messages and path attributes, and their numbers in bytes, for the tools for scripts. What the
//! server reads and writes has its own, so that each is tested by the other.
#![tactic(auto)]

mod attributes;
mod frames;
mod messages;

pub use attributes::{AttributeKind, EXTENDED_LENGTH};
pub use frames::{Connection, FrameKind};
pub use messages::MessageKind;

/// A number that no kind has.
#[derive(Clone, Copy, Debug, PartialEq, Eq)]
pub struct UnknownKind;
