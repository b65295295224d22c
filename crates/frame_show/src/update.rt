//! UPDATEs.
ghost use Rattle.std.specs.Prelude.{◌<◌, length, IfSome};

use crate::rows::{Cut, Row, cut_sized};
use kinds::{AttributeKind, EXTENDED_LENGTH};
use script_words::Prefix;
use std::fmt;

/// What an UPDATE says: prefixes as they are written, networks and communities.
#[derive(Clone, Copy)]
pub struct Update<'a> {
    announced: Row<'a, Prefix>,
    withdrawn: Row<'a, Prefix>,
    path: Option<Row<'a, u32>>,
    med: Option<u32>,
    communities: Row<'a, u32>,
}

/// The UPDATE, if the body of a message is one whose attributes are known and have the right flags.
pub fn read_update(body: &[u8]) -> Option<Update<'_>> {
    let (withdrawn, rest) = cut_sized::<u16>(body)?;
    let (attributes, announced) = cut_sized::<u16>(rest)?;
    let mut update = Update {
        announced: read_prefixes(announced)?,
        withdrawn: read_prefixes(withdrawn)?,
        path: None,
        med: None,
        communities: Row::of(&[]),
    };
    for attribute in Row::<Attribute<'_>>::of(attributes) {
        update.add(attribute?)?;
    }
    Some(update)
}

/// The prefixes, if a part holds prefixes and nothing else.
fn read_prefixes(part: &[u8]) -> Option<Row<'_, Prefix>> {
    if Row::<Prefix>::of(part).all(|prefix| prefix.is_some()) {
        Some(Row::of(part))
    } else {
        None
    }
}

/// An attribute. One with the flag 16 has its length in 2 bytes.
#[derive(Clone, Copy)]
struct Attribute<'a> {
    flags: u8,
    kind: u8,
    value: &'a [u8],
}

impl<'a> Cut<'a> for Attribute<'a> {
    fn cut(bytes: &'a [u8]) -> Option<(Attribute<'a>, &'a [u8])> {
        let (flags, rest) = u8::cut(bytes)?;
        let (kind, rest) = u8::cut(rest)?;
        let (value, rest) = if flags & EXTENDED_LENGTH != 0 {
            cut_sized::<u16>(rest)?
        } else {
            cut_sized::<u8>(rest)?
        };
        Some((Attribute { flags, kind, value }, rest))
    }
}

impl<'a> Update<'a> {
    /// Takes in one attribute, if it is known and has the right flags.
    fn add(&mut self, attribute: Attribute<'a>) -> Option<()> {
        let kind = AttributeKind::try_from(attribute.kind).ok()?;
        if attribute.flags & !EXTENDED_LENGTH != kind.flags() {
            return None;
        }
        let value = attribute.value;
        match kind {
            AttributeKind::Origin if value.len() == 1 => {}
            AttributeKind::Path => self.path = Some(Row::of(read_sequence(value)?)),
            AttributeKind::NextHop if value.len() == 4 => {}
            AttributeKind::Med if value.len() == 4 => self.med = Some(u32::cut(value)?.0),
            AttributeKind::Communities if value.len() % 4 == 0 => {
                self.communities = Row::of(value);
            }
            AttributeKind::Origin
            | AttributeKind::NextHop
            | AttributeKind::Med
            | AttributeKind::Communities => return None,
        }
        Some(())
    }
}

/// The networks of a path that is one sequence, or empty.
fn read_sequence(value: &[u8]) -> Option<&[u8]> {
    match value {
        [] => Some(value),
        [2, count, asns @ ..] if asns.len() == 4 * usize::from(*count) => Some(asns),
        _ => None,
    }
}

impl fmt::Display for Update<'_> {
    fn fmt<W: fmt::Write>(&self, f: &mut fmt::Formatter<W>) -> fmt::Result {
        write!(f, "{}", self.announced)?;
        if let Some(path) = &self.path {
            write!(f, " by{path}")?;
        }
        if let Some(med) = self.med {
            write!(f, " med {med}")?;
        }
        if !self.communities.is_empty() {
            write!(f, " communities{}", self.communities)?;
        }
        if !self.withdrawn.is_empty() {
            write!(f, " withdraw{}", self.withdrawn)?;
        }
        Ok(())
    }
}
