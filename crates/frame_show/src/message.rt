//! Messages.
ghost use Rattle.std.specs.Prelude.{◌<◌, length, IfSome};

use crate::rows::{Bytes, Cut, Row, cut_sized};
use crate::update::{Update, read_update};
use kinds::MessageKind;
use script_words::Address;
use std::fmt;

#[derive(Clone, Copy)]
pub enum Message<'a> {
    Open {
        asn: u32,
        hold_time: u16,
        identifier: Address,
    },
    Update(Update<'a>),
    Notification {
        code: u8,
        subcode: u8,
    },
    Keepalive,
    /// Bytes that are no message.
    Other(Bytes<'a>),
}

impl<'a> From<&'a [u8]> for Message<'a> {
    fn from(bytes: &'a [u8]) -> Message<'a> {
        read_message(bytes).unwrap_or(Message::Other(Bytes(bytes)))
    }
}

/// The message, if these bytes are one: 16 bytes of 255, the length of all, the kind and what it says.
fn read_message(bytes: &[u8]) -> Option<Message<'_>> {
    let (mark, rest) = bytes.split_first_chunk::<16>()?;
    let (size, rest) = u16::cut(rest)?;
    let (kind, body) = u8::cut(rest)?;
    if *mark != [255; 16] || usize::from(size) != bytes.len() {
        return None;
    }
    match (MessageKind::try_from(kind).ok()?, body) {
        (MessageKind::Open, body) => read_open(body),
        (MessageKind::Update, body) => Some(Message::Update(read_update(body)?)),
        (MessageKind::Notification, [code, subcode]) => Some(Message::Notification {
            code: *code,
            subcode: *subcode,
        }),
        (MessageKind::Keepalive, []) => Some(Message::Keepalive),
        (MessageKind::Notification | MessageKind::Keepalive, _) => None,
    }
}

/// An OPEN of version 4; its network is that of capability 65, if it has one.
fn read_open(body: &[u8]) -> Option<Message<'_>> {
    let (version, rest) = u8::cut(body)?;
    let (short_asn, rest) = u16::cut(rest)?;
    let (hold_time, rest) = u16::cut(rest)?;
    let (identifier, rest) = Address::cut(rest)?;
    let (size, parameters) = u8::cut(rest)?;
    if version != 4 || usize::from(size) != parameters.len() {
        return None;
    }
    Some(Message::Open {
        asn: find_asn(parameters).unwrap_or(u32::from(short_asn)),
        hold_time,
        identifier,
    })
}

/// A parameter of an OPEN, or a capability.
#[derive(Clone, Copy)]
struct Part<'a> {
    kind: u8,
    value: &'a [u8],
}

impl<'a> Cut<'a> for Part<'a> {
    fn cut(bytes: &'a [u8]) -> Option<(Part<'a>, &'a [u8])> {
        let (kind, rest) = u8::cut(bytes)?;
        let (value, rest) = cut_sized::<u8>(rest)?;
        Some((Part { kind, value }, rest))
    }
}

/// The network of capability 65 in the parameters of an OPEN.
fn find_asn(parameters: &[u8]) -> Option<u32> {
    Row::<Part<'_>>::of(parameters)
        .flatten()
        .filter(|part| part.kind == 2)
        .find_map(|part| find_capability(part.value))
}

/// The network of capability 65 among capabilities.
fn find_capability(capabilities: &[u8]) -> Option<u32> {
    Row::<Part<'_>>::of(capabilities)
        .flatten()
        .find_map(|part| match (part.kind, part.value) {
            (65, [a, b, c, d]) => Some(u32::from_be_bytes([*a, *b, *c, *d])),
            _ => None,
        })
}

impl fmt::Display for Message<'_> {
    fn fmt<W: fmt::Write>(&self, f: &mut fmt::Formatter<W>) -> fmt::Result {
        match self {
            Message::Open {
                asn,
                hold_time,
                identifier,
            } => write!(f, "OPEN {asn} hold {hold_time} {identifier}"),
            Message::Update(update) => write!(f, "UPDATE{update}"),
            Message::Notification { code, subcode } => write!(f, "NOTIFICATION {code} {subcode}"),
            Message::Keepalive => write!(f, "KEEPALIVE"),
            Message::Other(bytes) => write!(f, "{bytes}"),
        }
    }
}
