//! The kinds of path attributes, and their flags.
ghost use Rattle.std.specs.Prelude.{◌≡◌, false, MatchResult};
ghost use Rattle.kinds.specs.Numbers.{attribute_flags, attribute_number, is_attribute};

use crate::UnknownKind;

/// Flags of attributes, as bits.
const OPTIONAL: u8 = 0x80;

const TRANSITIVE: u8 = 0x40;

/// The flag of an attribute that has its length in 2 bytes.
pub const EXTENDED_LENGTH: u8 = 0x10;

/// What a path attribute is.
#[derive(Clone, Copy, Debug, PartialEq, Eq)]
pub enum AttributeKind {
    Origin,
    Path,
    NextHop,
    Med,
    Communities,
}

impl AttributeKind {
    /// Its flags, but for that of a length in 2 bytes.
    pub fn flags(self) -> u8
        ensures { result ≡ attribute_flags self }
    {
        match self {
            AttributeKind::Origin | AttributeKind::Path | AttributeKind::NextHop => TRANSITIVE,
            AttributeKind::Med => OPTIONAL,
            AttributeKind::Communities => OPTIONAL | TRANSITIVE,
        }
    }
}

impl From<AttributeKind> for u8 {
    ghost from_gives = { λ kind n. n ≡ attribute_number kind };

    fn from(kind: AttributeKind) -> u8 {
        match kind {
            AttributeKind::Origin => 1,
            AttributeKind::Path => 2,
            AttributeKind::NextHop => 3,
            AttributeKind::Med => 4,
            AttributeKind::Communities => 8,
        }
    }
}

impl TryFrom<u8> for AttributeKind {
    type Error = UnknownKind;

    ghost try_from_gives = { λ n r. MatchResult r (λ kind. attribute_number kind ≡ n) (λ _. is_attribute n ≡ false) };

    fn try_from(number: u8) -> Result<AttributeKind, UnknownKind> {
        match number {
            1 => Ok(AttributeKind::Origin),
            2 => Ok(AttributeKind::Path),
            3 => Ok(AttributeKind::NextHop),
            4 => Ok(AttributeKind::Med),
            8 => Ok(AttributeKind::Communities),
            _ => Err(UnknownKind),
        }
    }
}
