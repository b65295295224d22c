//! The kinds of frames.
ghost use Rattle.std.specs.Prelude.{◌≡◌, false, MatchResult};
ghost use Rattle.kinds.specs.Numbers.{connection_number, frame_number, is_connection, is_frame};

use crate::UnknownKind;

/// What a frame is.
#[derive(Clone, Copy, Debug, PartialEq, Eq)]
pub enum FrameKind {
    /// A message from a peer.
    Message,
    /// A connection that comes up or breaks.
    Connection,
    Tick,
    PolicyText,
    Settings,
    /// A message to a peer.
    ToPeer,
    Close,
}

impl From<FrameKind> for u8 {
    ghost from_gives = { λ kind n. n ≡ frame_number kind };

    fn from(kind: FrameKind) -> u8 {
        match kind {
            FrameKind::Message => 1,
            FrameKind::Connection => 2,
            FrameKind::Tick => 3,
            FrameKind::PolicyText => 4,
            FrameKind::Settings => 5,
            FrameKind::ToPeer => 16,
            FrameKind::Close => 17,
        }
    }
}

impl TryFrom<u8> for FrameKind {
    type Error = UnknownKind;

    ghost try_from_gives = { λ n r. MatchResult r (λ kind. frame_number kind ≡ n) (λ _. is_frame n ≡ false) };

    fn try_from(number: u8) -> Result<FrameKind, UnknownKind> {
        match number {
            1 => Ok(FrameKind::Message),
            2 => Ok(FrameKind::Connection),
            3 => Ok(FrameKind::Tick),
            4 => Ok(FrameKind::PolicyText),
            5 => Ok(FrameKind::Settings),
            16 => Ok(FrameKind::ToPeer),
            17 => Ok(FrameKind::Close),
            _ => Err(UnknownKind),
        }
    }
}

/// What a frame says of a connection.
#[derive(Clone, Copy, Debug, PartialEq, Eq)]
pub enum Connection {
    Down,
    Up,
}

impl From<Connection> for u8 {
    ghost from_gives = { λ connection n. n ≡ connection_number connection };

    fn from(connection: Connection) -> u8 {
        match connection {
            Connection::Down => 0,
            Connection::Up => 1,
        }
    }
}

impl TryFrom<u8> for Connection {
    type Error = UnknownKind;

    ghost try_from_gives = { λ n r. MatchResult r (λ connection. connection_number connection ≡ n) (λ _. is_connection n ≡ false) };

    fn try_from(number: u8) -> Result<Connection, UnknownKind> {
        match number {
            0 => Ok(Connection::Down),
            1 => Ok(Connection::Up),
            _ => Err(UnknownKind),
        }
    }
}
