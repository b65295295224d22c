//! Frames.
ghost use Rattle.std.specs.Prelude.{◌<◌, length, IfSome};

use crate::message::Message;
use crate::rows::{Bytes, Cut, Row, cut_sized};
use kinds::{Connection, FrameKind};
use script_words::Peer;
use std::fmt;

#[derive(Clone, Copy)]
pub enum Frame<'a> {
    From { peer: u8, message: Message<'a> },
    To { peer: u8, message: Message<'a> },
    Connection { peer: u8, state: Connection },
    Tick,
    Text { text: &'a [u8] },
    Settings { own: Peer, peers: Row<'a, Peer> },
    Close { peer: u8 },
    /// Bytes that begin with no frame.
    Other(Bytes<'a>),
}

/// The first frame, and what is behind it. Where there is no frame that can be read it is all the bytes.
impl<'a> Cut<'a> for Frame<'a> {
    fn cut(bytes: &'a [u8]) -> Option<(Frame<'a>, &'a [u8])> {
        if bytes.is_empty() {
            return None;
        }
        Some(cut_frame(bytes).unwrap_or((Frame::Other(Bytes(bytes)), &[])))
    }
}

fn cut_frame(bytes: &[u8]) -> Option<(Frame<'_>, &[u8])>
    ensures { IfSome result (λ p. length p.1.now < length bytes.now) }
{
    let (kind, rest) = u8::cut(bytes)?;
    match FrameKind::try_from(kind).ok()? {
        FrameKind::Message => {
            let (peer, message, rest) = cut_message(rest)?;
            Some((Frame::From { peer, message }, rest))
        }
        FrameKind::ToPeer => {
            let (peer, message, rest) = cut_message(rest)?;
            Some((Frame::To { peer, message }, rest))
        }
        FrameKind::Connection => {
            let (peer, rest) = u8::cut(rest)?;
            let (state, rest) = u8::cut(rest)?;
            let state = Connection::try_from(state).ok()?;
            Some((Frame::Connection { peer, state }, rest))
        }
        FrameKind::Tick => Some((Frame::Tick, rest)),
        FrameKind::PolicyText => {
            let (size, rest) = u32::cut(rest)?;
            let (text, rest) = rest.split_at_checked(size as usize)?;
            Some((Frame::Text { text }, rest))
        }
        FrameKind::Settings => cut_settings(rest),
        FrameKind::Close => {
            let (peer, rest) = u8::cut(rest)?;
            Some((Frame::Close { peer }, rest))
        }
    }
}

/// The peer's number and the message behind the kind of a frame, and what is behind them.
fn cut_message(bytes: &[u8]) -> Option<(u8, Message<'_>, &[u8])>
    ensures { IfSome result (λ p. length p.2.now < length bytes.now) }
{
    let (peer, rest) = u8::cut(bytes)?;
    let (message, rest) = cut_sized::<u16>(rest)?;
    Some((peer, Message::from(message), rest))
}

/// Settings behind the kind of a frame, and what is behind them.
fn cut_settings(bytes: &[u8]) -> Option<(Frame<'_>, &[u8])>
    ensures { IfSome result (λ p. length p.1.now < length bytes.now) }
{
    let (count, rest) = u8::cut(bytes)?;
    let (own, rest) = Peer::cut(rest)?;
    let (peers, rest) = rest.split_at_checked(8 * usize::from(count))?;
    let peers = Row::of(peers);
    Some((Frame::Settings { own, peers }, rest))
}

impl fmt::Display for Frame<'_> {
    fn fmt<W: fmt::Write>(&self, f: &mut fmt::Formatter<W>) -> fmt::Result {
        match self {
            Frame::From { peer, message } => write!(f, "from {peer}: {message}"),
            Frame::To { peer, message } => write!(f, "to {peer}: {message}"),
            Frame::Connection { peer, state } => match state {
                Connection::Up => write!(f, "up {peer}"),
                Connection::Down => write!(f, "down {peer}"),
            },
            Frame::Tick => write!(f, "tick"),
            Frame::Text { text } => write_text(f, text),
            Frame::Settings { own, peers } => {
                let Peer { asn, address } = *own;
                write!(f, "settings {asn} {address}{peers}")
            }
            Frame::Close { peer } => write!(f, "close {peer}"),
            Frame::Other(bytes) => write!(f, "{bytes}"),
        }
    }
}

/// A policy text, from `text` to `end`; in bytes where it is no text.
fn write_text<W: fmt::Write>(f: &mut fmt::Formatter<W>, text: &[u8]) -> fmt::Result {
    let Ok(words) = std::str::from_utf8(text) else {
        let bytes = Bytes(text);
        return write!(f, "text {bytes}");
    };
    writeln!(f, "text")?;
    for line in words.lines() {
        writeln!(f, "{line}")?;
    }
    write!(f, "end")
}
