//! Events of a route server in bytes: framed, one after the other, high byte first.
#![tactic(auto)]

pub mod event;
mod kind;
pub mod reading;
pub mod settings;
