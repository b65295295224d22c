//! Messages as peers send them, in bytes.
#![tactic(auto)]

mod basics;
mod updates;

pub use basics::{keepalive, message, notification, open};
pub use updates::Update;
