//! What settings say, and how they are read from the bytes of a frame.
ghost use Rattle.std.specs.Prelude.{◌≡◌, ◌+◌, ◌*◌, ◌≤◌, length, slice_index};
ghost use Rattle.frame.specs.Settings.{exchange, peer_of, peer_at, settings_at};

use super::{MAX_PEERS, Peer, Settings};
use wire::{skip, u32_of};

impl Settings {
    /// The server's own autonomous system.
    pub fn own_asn(&self) -> u32
        ensures { result ≡ (exchange self.now).asn }
    {
        self.asn
    }

    /// The server's own address.
    pub fn own_address(&self) -> u32
        ensures { result ≡ (exchange self.now).address }
    {
        self.address
    }

    /// How many peers there are.
    pub fn peer_count(&self) -> u8
        ensures { result ≡ length (exchange self.now).peers }
    {
        self.count
    }

    /// The peer with this number, if there is one.
    pub fn peer(&self, number: u8) -> Option<Peer>
        ensures { result ≡ peer_of (exchange self.now) number }
    {
        let peers = &self.peers[..usize::from(self.count)];
        peers.get(usize::from(number)).copied()
    }
}

/// The peer with this number in a settings frame.
#[tactic(auto, using(crate::proofs::Numbers::numbers_behind))]
fn peer_at(frame: &[u8], number: usize) -> Peer
    requires { 18 + 8 * number ≤ length frame.now }
    ensures { result ≡ peer_at frame.now number }
{
    let bytes = skip(frame, 10 + 8 * number);
    Peer {
        asn: u32_of(bytes),
        address: u32_of(skip(bytes, 4)),
    }
}

/// The settings in a settings frame.
#[tactic(auto, using(crate::proofs::Numbers::numbers_behind))]
pub fn settings_at(frame: &[u8]) -> Settings
    requires { (slice_index frame.now 1 ≤ 64) × (10 + 8 * slice_index frame.now 1 ≤ length frame.now) }
    ensures { exchange result ≡ settings_at frame.now }
{
    let count = frame[1];
    let mut peers = [Peer { asn: 0, address: 0 }; MAX_PEERS];
    // By its number: what is written through `iter_mut` is not known afterwards.
    for i in 0..usize::from(count) {
        peers[i] = peer_at(frame, i);
    }
    Settings {
        asn: u32_of(skip(frame, 2)),
        address: u32_of(skip(frame, 6)),
        peers,
        count,
    }
}
