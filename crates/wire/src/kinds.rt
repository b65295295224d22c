//! The kinds of messages, and their numbers.
ghost use Rattle.std.specs.Prelude.{◌≡◌, ok_or};
ghost use Rattle.wire.specs.Kinds.{kind_named, number_of};

/// The kinds of messages.
#[derive(Clone, Copy, Debug, PartialEq, Eq)]
pub enum Kind {
    Open,
    Update,
    Notification,
    Keepalive,
}

/// A number that is no kind's.
#[derive(Clone, Copy, Debug, PartialEq, Eq)]
pub struct UnknownKind;

impl From<Kind> for u8 {
    ghost from_gives = { λ kind n. n ≡ number_of kind };

    fn from(kind: Kind) -> u8 {
        match kind {
            Kind::Open => 1,
            Kind::Update => 2,
            Kind::Notification => 3,
            Kind::Keepalive => 4,
        }
    }
}

impl TryFrom<u8> for Kind {
    type Error = UnknownKind;

    ghost try_from_gives = { λ number result. result ≡ ok_or (kind_named number) record {} };

    fn try_from(number: u8) -> Result<Kind, UnknownKind> {
        match number {
            1 => Ok(Kind::Open),
            2 => Ok(Kind::Update),
            3 => Ok(Kind::Notification),
            4 => Ok(Kind::Keepalive),
            _ => Err(UnknownKind),
        }
    }
}
