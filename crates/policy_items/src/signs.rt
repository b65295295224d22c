//! Signs, and what begins a clause.
ghost use Rattle.std.specs.Prelude.{◌≡◌, Some, None, MatchOption};
ghost use Rattle.policy_clauses.specs.Meant.{Reads, as_is};
ghost use Rattle.policy_items.specs.Items.{comma, equals, opens};
ghost use Rattle.policy_items.specs.Meant.{start_with};
ghost use Rattle.text_tokens.specs.Meant.{left};

use policy_clauses::{Awaited, Refusal};
use text_tokens::{Kind, Reader, Sign};

/// `=` on the same line.
pub(crate) fn equals(reader: &mut Reader<'_>) -> Result<(), Refusal>
    ensures { Reads as_is equals (left reader.old) (left reader.new) result }
{
    let token = reader.next();
    match token.kind {
        Kind::Sign(Sign::Equals) if !token.fresh => Ok(()),
        _ => Err(Refusal::new(token.at, Awaited::Equals)),
    }
}

/// `{`, on this line or below.
pub fn open(reader: &mut Reader<'_>) -> Result<(), Refusal>
    ensures { Reads as_is opens (left reader.old) (left reader.new) result }
{
    let token = reader.next();
    match token.kind {
        Kind::Sign(Sign::Open) => Ok(()),
        _ => Err(Refusal::new(token.at, Awaited::Open)),
    }
}

/// The offset of a comma on the same line; where none is next, nothing is taken.
pub(crate) fn comma(reader: &mut Reader<'_>) -> Option<usize>
    ensures { MatchOption result ((comma (left reader.old) ≡ None) × (left reader.new ≡ left reader.old)) (λ at. comma (left reader.old) ≡ Some (at, left reader.new)) }
{
    let mut ahead = *reader;
    let token = ahead.next();
    match token.kind {
        Kind::Sign(Sign::Comma) if !token.fresh => {
            *reader = ahead;
            Some(token.at)
        }
        _ => None,
    }
}

/// What a token can begin within a policy.
#[derive(Clone, Copy)]
pub(crate) enum Start {
    Clause,
    Close,
}

pub(crate) fn start_of(kind: Kind<'_>) -> Option<Start>
    ensures { result ≡ start_with kind.entry }
{
    match kind {
        Kind::Word(b"if") => Some(Start::Clause),
        Kind::Sign(Sign::Close) => Some(Start::Close),
        _ => None,
    }
}
