//! The route server: each event changes what it goes by, and tells every peer what is new for it.
#![tactic(auto)]

use peers::PeerSet;
use rib::Rib;
use selection::PolicySource;

mod changes;
mod events;
mod inner;

/// What the server goes by: whose session is up, what each peer last announced, and the policies. It remembers nothing of what it told.
#[derive(Drop)]
pub struct Server<R: Rib, P: PolicySource> {
    own_asn: u32,
    peers: u8,
    up: PeerSet,
    policies: P,
    rib: R,
}
