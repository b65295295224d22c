//! Frames to peers: updates become bytes.
#![tactic(auto)]

ghost use Rattle.std.specs.Prelude.{ℕ, List, []};

use peers::PeerSet;

mod framing;
mod putting;

/// What takes the bytes that go out, by what writing does.
pub trait Output {
    ghost writes: { Self → List ℕ → Self → Type 0 };

    /// Writes the bytes behind all that was written before.
    fn write(&mut self, bytes: &[u8])
        ensures { writes self.old bytes.now self.new };

    /// Hands on what is held back. No byte more is written.
    fn flush(&mut self)
        ensures { writes self.old [] self.new };
}

/// Frames to peers, over an output. It remembers to which peers a message was carried since it began.
#[derive(Drop)]
pub struct Outbox<O: Output> {
    output: O,
    own_asn: u32,
    address: u32,
    reached: PeerSet,
}
