//! The settings of a route server.
ghost use Rattle.std.specs.Prelude.{◌≡◌, ◌≤◌, length};

pub(crate) mod content;

pub use peers::Peer;

/// The most peers that a route server has.
pub const MAX_PEERS: usize = 64;

/// The server's own autonomous system and address, and its peers, numbered from 0.
#[derive(Clone, Copy)]
pub struct Settings {
    asn: u32,
    address: u32,
    /// The first `count` are the peers; what stands behind them means nothing. A row with a count, since memory is fixed
    /// and settings are copied.
    peers: [Peer; MAX_PEERS],
    count: u8,
    ghost few: { count ≤ 64 },
    ghost places: { length peers ≡ 64 },
}
