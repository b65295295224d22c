//! Reading BGP messages.
#![tactic(auto)]

mod header;
mod opens;
mod reading;

pub use attributes::Peer;
pub use reading::read;
pub use update::{Attributes, Content};
pub use wire::Kind;

/// What a session is at: its OPEN is sent and the peer's awaited, or both have come.
#[derive(Clone, Copy)]
pub enum State {
    OpenSent,
    Established,
}

#[derive(Clone, Copy)]
pub struct Open {
    pub hold_time: u16,
    pub identifier: u32,
}

#[derive(Clone, Copy)]
pub enum Message {
    Open(Open),
    Update(Content),
    // A code and a subcode.
    Notification(u8, u8),
    Keepalive,
}
