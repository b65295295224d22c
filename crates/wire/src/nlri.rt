//! Prefixes in a part of a message.
ghost use Rattle.std.specs.Prelude.{◌≡◌, true, false, [], ◌∷◌, MatchOption};
ghost use Rattle.prefix.specs.Meant.{meant};
ghost use Rattle.wire.specs.Meant.{named_of};
ghost use Rattle.wire.specs.Nlri.{checked, holds_prefix, named, prefix_of, prefix_size};

use crate::bytes::{byte_at, cut, first, skip, u32_of};
use prefix::Prefix;

/// What a part of a message holds that should hold prefixes.
#[derive(Clone, Copy)]
pub enum Check {
    // Its last prefix is longer than what is left for it.
    Overrun,
    // Something in it is no prefix.
    SomeInvalid,
    Valid,
}

/// Whether the part holds prefixes and nothing else.
#[tactic(auto, using(crate::proofs::Naming::checking))]
pub fn check_prefixes(part: &[u8]) -> Check
    ensures { result ≡ checked part.now }
{
    let mut rest = part;
    let mut invalid = false;
    while !rest.is_empty() {
        let Some((piece, after)) = cut(rest, prefix_size(rest)) else {
            return Check::Overrun;
        };
        invalid |= !holds_prefix(piece);
        rest = after;
    }
    if invalid {
        Check::SomeInvalid
    } else {
        Check::Valid
    }
}

/// What is left of a part of a message, prefix by prefix.
#[derive(Clone, Copy)]
pub struct Prefixes<'a> {
    rest: &'a [u8],
}

impl<'a> Prefixes<'a> {
    pub fn of(part: &'a [u8]) -> Prefixes<'a>
        ensures { named_of result ≡ named part.now }
    {
        Prefixes { rest: part }
    }

    /// The next prefix; what is no prefix is passed over.
    #[tactic(auto, using(crate::proofs::Naming::naming))]
    pub fn next(&mut self) -> Option<Prefix>
        ensures { MatchOption result ((named_of self.old ≡ []) × (named_of self.new ≡ [])) (λ p. named_of self.old ≡ meant p ∷ named_of self.new) }
    {
        while !self.rest.is_empty() {
            let size = prefix_size(self.rest);
            let piece = first(self.rest, size);
            self.rest = skip(self.rest, size);
            if let Some(prefix) = prefix_in(piece) {
                return Some(prefix);
            }
        }
        None
    }
}

/// How many bytes the first prefix takes.
fn prefix_size(part: &[u8]) -> usize
    ensures { result ≡ prefix_size part.now }
{
    1 + (usize::from(byte_at(part, 0)) + 7) / 8
}

/// Whether the piece is a prefix.
fn holds_prefix(piece: &[u8]) -> bool
    ensures { result ≡ holds_prefix piece.now }
{
    prefix_in(piece).is_some()
}

/// The prefix that the piece is, if it is one.
fn prefix_in(piece: &[u8]) -> Option<Prefix>
    ensures { MatchOption result (holds_prefix piece.now ≡ false) (λ p. (holds_prefix piece.now ≡ true) × (meant p ≡ prefix_of piece.now)) }
{
    if piece.len() != prefix_size(piece) {
        return None;
    }
    Prefix::new(u32_of(skip(piece, 1)), byte_at(piece, 0))
}
