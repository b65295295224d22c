//! The header of a message.
ghost use Rattle.std.specs.Prelude.{◌≡◌, Some};
ghost use Rattle.message.specs.Header.{are_ones, has_length, is_framed_as, kind_of};

use wire::{Kind, byte_at, first, skip, u16_of};

/// The kind of a message whose header is right.
#[tactic(auto, unfolding(crate::specs::Header::kind_of))]
pub fn read_header(message: &[u8]) -> Option<Kind>
    ensures { result ≡ kind_of message.now }
{
    let kind = Kind::try_from(byte_at(message, 18)).ok()?;
    if is_framed(message, kind) {
        Some(kind)
    } else {
        None
    }
}

/// Whether the marker and the length of a message of this kind are right.
fn is_framed(message: &[u8], kind: Kind) -> bool
    ensures { result ≡ is_framed_as (Some kind) message.now }
{
    let length = message.len();
    are_ones(first(message, 16))
        && usize::from(u16_of(skip(message, 16))) == length
        && length <= 4096
        && has_length(kind, length)
}

/// Whether each byte is 255.
fn are_ones(bytes: &[u8]) -> bool
    ensures { result ≡ are_ones bytes.now }
{
    bytes.iter().all(|byte| *byte == 255)
}

/// Whether a message of the kind can be so long.
fn has_length(kind: Kind, length: usize) -> bool
    ensures { result ≡ has_length (Some kind) length }
{
    match kind {
        Kind::Open => length >= 29,
        Kind::Update => length >= 23,
        Kind::Notification => length >= 21,
        Kind::Keepalive => length == 19,
    }
}
