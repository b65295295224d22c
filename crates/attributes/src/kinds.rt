//! The types of attributes, and how each stands in a message.
ghost use Rattle.std.specs.Prelude.{◌≡◌};
ghost use Rattle.attributes.specs.Layout.{attribute_size, has_flags, has_form, has_length, is_extended, kind_of, type_of, value_of};

use crate::Kind;
use wire::flags::{EXTENDED_LENGTH, OPTIONAL, TRANSITIVE};
use wire::{byte_at, skip, u16_of};

impl From<u8> for Kind {
    ghost from_gives = { λ number kind. kind ≡ kind_of number };

    fn from(number: u8) -> Kind {
        match number {
            1 => Kind::Origin,
            2 => Kind::AsPath,
            3 => Kind::NextHop,
            4 => Kind::Med,
            5 => Kind::LocalPref,
            8 => Kind::Communities,
            _ => Kind::Other,
        }
    }
}

impl Kind {
    /// Whether these are the flags of the attribute: only optional and transitive are looked at.
    fn has_flags(self, flags: u8) -> bool
        ensures { result ≡ has_flags self flags }
    {
        let flags = flags & (OPTIONAL | TRANSITIVE);
        match self {
            Kind::Origin | Kind::AsPath | Kind::NextHop | Kind::LocalPref => flags == TRANSITIVE,
            Kind::Med => flags == OPTIONAL,
            Kind::Communities => flags == OPTIONAL | TRANSITIVE,
            Kind::Other => true,
        }
    }

    /// Whether the attribute can have so many bytes.
    fn has_length(self, length: usize) -> bool
        ensures { result ≡ has_length self length }
    {
        match self {
            Kind::Origin => length == 1,
            Kind::NextHop | Kind::Med | Kind::LocalPref => length == 4,
            Kind::Communities => length != 0 && length % 4 == 0,
            Kind::AsPath | Kind::Other => true,
        }
    }
}

/// Whether the attribute's flags and length are those of its type.
pub fn has_form(attribute: &[u8]) -> bool
    ensures { result ≡ has_form attribute.now }
{
    let kind = Kind::from(byte_at(attribute, 1));
    kind.has_flags(byte_at(attribute, 0)) && kind.has_length(value_of(attribute).len())
}

/// How many bytes the first attribute takes.
pub fn attribute_size(attributes: &[u8]) -> usize
    ensures { result ≡ attribute_size attributes.now }
{
    if is_extended(attributes) {
        4 + usize::from(u16_of(skip(attributes, 2)))
    } else {
        3 + usize::from(byte_at(attributes, 2))
    }
}

pub fn value_of(attribute: &[u8]) -> &[u8]
    ensures { result.now ≡ value_of attribute.now }
{
    if is_extended(attribute) {
        skip(attribute, 4)
    } else {
        skip(attribute, 3)
    }
}

/// Whether the first attribute's length has two bytes.
fn is_extended(attributes: &[u8]) -> bool
    ensures { result ≡ is_extended attributes.now }
{
    byte_at(attributes, 0) & EXTENDED_LENGTH != 0
}
