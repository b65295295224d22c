//! Sets of peers, of which there are at most 64.
#![tactic(auto)]

mod methods;
mod peer;

pub use peer::Peer;

#[derive(Clone, Copy)]
pub struct PeerSet {
    members: [bool; 64],
}
