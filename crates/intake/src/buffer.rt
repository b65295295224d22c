//! The bytes of an input that are at hand.
ghost use Rattle.std.specs.Prelude.{◌≡◌, ◌≤◌, length};

pub mod filling;

/// Room for the longest frame, and as much again, so that bytes are seldom moved.
pub const CAPACITY: usize = 131_072;

/// The bytes from place `start` to place `end` are at hand. Places, since memory is fixed: bytes come behind and go in front.
#[derive(Drop)]
pub struct Buffer {
    bytes: [u8; CAPACITY],
    start: usize,
    end: usize,
    ghost ordered: { start ≤ end },
    ghost within: { end ≤ 131072 },
    ghost places: { length bytes ≡ 131072 },
}
