//! From lines to frames.
use crate::damage::Damage;
use crate::framing::{put_connection, put_message, put_settings, put_text};
use crate::parts::{read_announcement, read_withdrawal};
use kinds::{Connection, FrameKind};
use peer_messages::{keepalive, notification, open};
use script_words::{Address, Peer, Problem, Words};
use std::alloc::Global;
use std::error::Error;
use std::fmt;
use std::str::FromStr;

/// The line of a script that is refused, counted from 1, and why.
#[derive(Clone, Copy, Debug, PartialEq, Eq)]
pub struct Refused {
    pub line: u64,
    pub problem: Problem,
}

impl fmt::Display for Refused {
    fn fmt<W: fmt::Write>(&self, f: &mut fmt::Formatter<W>) -> fmt::Result {
        let Refused { line, problem } = *self;
        write!(f, "line {line}: {problem}")
    }
}

impl Error for Refused {}

/// The frames of a script.
pub fn frames(heap: Global, script: &str) -> Result<Vec<u8>, Refused> {
    let mut writer = Writer::new(heap);
    let mut last = 0;
    for (words, line) in script.lines().zip(1u64..) {
        writer
            .line(words)
            .map_err(|problem| Refused { line, problem })?;
        last = line;
    }
    writer.end().map_err(|problem| Refused {
        line: last,
        problem,
    })
}

#[derive(Drop)]
struct Writer {
    heap: Global,
    /// The peers of the first settings.
    peers: Option<Vec<Peer>>,
    /// What is done to the next message.
    damages: Vec<Damage>,
    /// The lines of a policy text that has not ended.
    text: Option<Vec<u8>>,
    out: Vec<u8>,
}

impl Writer {
    fn new(heap: Global) -> Writer {
        Writer {
            heap,
            peers: None,
            damages: Vec::new(heap),
            text: None,
            out: Vec::new(heap),
        }
    }

    /// All frames, if nothing is begun and not ended.
    fn end(self) -> Result<Vec<u8>, Problem> {
        if self.text.is_some() {
            return Err(Problem::NoEnd);
        }
        if !self.damages.is_empty() {
            return Err(Problem::NoMessage);
        }
        Ok(self.out)
    }

    fn line(&mut self, line: &str) -> Result<(), Problem> {
        if let Some(text) = self.text.take() {
            return self.text_line(text, line);
        }
        let mut words = Words::of(line);
        let Some(verb) = words.next() else {
            return Ok(());
        };
        match verb {
            "settings" => self.settings(words),
            "up" => self.connection(words, Connection::Up),
            "down" => self.connection(words, Connection::Down),
            "tick" => self.ticks(words, 1),
            "ticks" => {
                let count = words.number()?;
                self.ticks(words, count)
            }
            "text" => {
                self.text = Some(Vec::new(self.heap));
                words.end()
            }
            "raw" => words.put_bytes(&mut self.out),
            "flip" => {
                let place = words.number()?;
                self.damage(Damage::Flip(place as usize), words)
            }
            "cut" => {
                let count = words.number()?;
                self.damage(Damage::Cut(count as usize), words)
            }
            _ => self.message(verb.parse::<Kind>()?, words),
        }
    }

    /// A line of a policy text, or its end.
    fn text_line(&mut self, mut text: Vec<u8>, line: &str) -> Result<(), Problem> {
        if line.trim() == "end" {
            return put_text(&mut self.out, text.as_slice());
        }
        text.extend_from_slice(line.as_bytes())?;
        text.extend_from_slice(b"\n")?;
        self.text = Some(text);
        Ok(())
    }

    fn settings(&mut self, mut words: Words<'_>) -> Result<(), Problem> {
        let asn = words.number()?;
        let address = words.word()?.parse::<Address>()?;
        let mut peers = Vec::new(self.heap);
        for word in words.rest() {
            peers.push(word.parse::<Peer>()?)?;
        }
        put_settings(&mut self.out, Peer { asn, address }, peers.as_slice())?;
        if self.peers.is_none() && peers.len() <= 64 {
            self.peers = Some(peers);
        }
        Ok(())
    }

    /// The connection to a peer comes up or breaks.
    fn connection(&mut self, mut words: Words<'_>, state: Connection) -> Result<(), Problem> {
        put_connection(&mut self.out, words.small()?, state)?;
        words.end()
    }

    fn ticks(&mut self, words: Words<'_>, count: u32) -> Result<(), Problem> {
        for _ in 0..count {
            self.out.push(u8::from(FrameKind::Tick))?;
        }
        words.end()
    }

    /// Something to do to the next message.
    fn damage(&mut self, damage: Damage, words: Words<'_>) -> Result<(), Problem> {
        self.damages.push(damage)?;
        words.end()
    }

    /// A message of a peer, with the damage that was asked for.
    fn message(&mut self, kind: Kind, mut words: Words<'_>) -> Result<(), Problem> {
        let peer = words.small()?;
        let mut message = self.content(kind, peer, words)?;
        for damage in self.damages.iter() {
            damage.apply(&mut message)?;
        }
        self.damages.clear();
        put_message(&mut self.out, peer, message.as_slice())
    }

    /// The bytes of a message of a peer.
    fn content(&self, kind: Kind, peer: u8, mut words: Words<'_>) -> Result<Vec<u8>, Problem> {
        let heap = self.heap;
        match kind {
            Kind::Open => {
                words.end()?;
                Ok(open(heap, self.peer(peer)?)?)
            }
            Kind::Keepalive => {
                words.end()?;
                Ok(keepalive(heap)?)
            }
            Kind::Notification => {
                let code = words.small()?;
                let subcode = words.small()?;
                words.end()?;
                Ok(notification(heap, code, subcode)?)
            }
            Kind::Announce => {
                let next_hop = self.peer(peer)?.address;
                Ok(read_announcement(heap, words)?.write(heap, Some(next_hop))?)
            }
            Kind::Withdraw => Ok(read_withdrawal(heap, words)?.write(heap, None)?),
            Kind::Bytes => {
                let mut bytes = Vec::new(heap);
                words.put_bytes(&mut bytes)?;
                Ok(bytes)
            }
        }
    }

    /// A peer by its number in the settings.
    fn peer(&self, number: u8) -> Result<Peer, Problem> {
        let peers = self.peers.as_ref().ok_or(Problem::NotInSettings)?;
        peers
            .get(usize::from(number))
            .copied()
            .ok_or(Problem::NotInSettings)
    }
}

/// The lines that are messages of a peer.
#[derive(Clone, Copy)]
enum Kind {
    Open,
    Keepalive,
    Notification,
    Announce,
    Withdraw,
    Bytes,
}

/// The kind of a line, by the word that it begins with.
impl FromStr for Kind {
    type Err = Problem;

    fn from_str(verb: &str) -> Result<Kind, Problem> {
        match verb {
            "open" => Ok(Kind::Open),
            "keepalive" => Ok(Kind::Keepalive),
            "notification" => Ok(Kind::Notification),
            "announce" => Ok(Kind::Announce),
            "withdraw" => Ok(Kind::Withdraw),
            "bytes" => Ok(Kind::Bytes),
            _ => Err(Problem::Unknown),
        }
    }
}
