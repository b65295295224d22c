//! A peer, by what names it.

/// A peer: its autonomous system and its address.
#[derive(Clone, Copy, Debug, PartialEq, Eq)]
pub struct Peer {
    pub asn: u32,
    pub address: u32,
}
