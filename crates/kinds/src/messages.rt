//! The kinds of messages.
ghost use Rattle.std.specs.Prelude.{◌≡◌, false, MatchResult};
ghost use Rattle.kinds.specs.Numbers.{is_message, message_number};

use crate::UnknownKind;

/// What a message is.
#[derive(Clone, Copy, Debug, PartialEq, Eq)]
pub enum MessageKind {
    Open,
    Update,
    Notification,
    Keepalive,
}

impl From<MessageKind> for u8 {
    ghost from_gives = { λ kind n. n ≡ message_number kind };

    fn from(kind: MessageKind) -> u8 {
        match kind {
            MessageKind::Open => 1,
            MessageKind::Update => 2,
            MessageKind::Notification => 3,
            MessageKind::Keepalive => 4,
        }
    }
}

impl TryFrom<u8> for MessageKind {
    type Error = UnknownKind;

    ghost try_from_gives = { λ n r. MatchResult r (λ kind. message_number kind ≡ n) (λ _. is_message n ≡ false) };

    fn try_from(number: u8) -> Result<MessageKind, UnknownKind> {
        match number {
            1 => Ok(MessageKind::Open),
            2 => Ok(MessageKind::Update),
            3 => Ok(MessageKind::Notification),
            4 => Ok(MessageKind::Keepalive),
            _ => Err(UnknownKind),
        }
    }
}
