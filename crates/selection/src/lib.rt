//! What each peer should hold: import, selection and export.
#![tactic(auto)]

use peers::PeerSet;
use rib::Rib;
use route::Route;

mod candidates;
mod exporting;
mod importing;
mod laws;
mod policies;
mod selecting;

pub use candidates::better_of;
pub use exporting::{export, offer};
pub use importing::import;
pub use laws::selection_laws;
pub use policies::PolicySource;

/// An imported route, and the peer from which it comes.
#[derive(Clone, Copy)]
pub struct Candidate {
    pub peer: u8,
    pub route: Route,
}

/// The numbers by which candidates are compared; the better is the greater.
#[derive(Clone, Copy, Debug, PartialEq, Eq)]
pub struct Rank {
    local_pref: u32,
    path_len: usize,
    med: u32,
    peer: u8,
}

/// By what it counts what is announced: the policies, and the silent peers, whose announcements don't count.
#[derive(Drop)]
pub struct Terms<'a, P: PolicySource> {
    pub policies: &'a P,
    pub silent: PeerSet,
}

/// All that goes into what a peer should hold: who is there, what each announced, and by which terms that counts.
#[derive(Drop)]
pub struct View<'a, R: Rib, P: PolicySource> {
    pub own_asn: u32,
    pub peers: u8,
    pub rib: &'a R,
    pub terms: Terms<'a, P>,
}
