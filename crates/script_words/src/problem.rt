//! Why a line of a script is refused.
use std::alloc::{AllocError, AllocFailed};
use std::error::Error;
use std::fmt;

#[derive(Clone, Copy, Debug, PartialEq, Eq)]
pub enum Problem {
    /// A line begins with no word of the language.
    Unknown,
    Missing,
    Extra,
    NoNumber,
    NoByte,
    NoAddress,
    NoPrefix,
    NoPeer,
    /// The settings do not have the peer whose network or address is asked for.
    NotInSettings,
    TooLong,
    /// A byte of a message is to be changed that is not there, or more bytes kept than there are.
    Shorter,
    NoEnd,
    NoMessage,
    Memory,
}

/// What the line is told.
impl fmt::Display for Problem {
    fn fmt<W: fmt::Write>(&self, f: &mut fmt::Formatter<W>) -> fmt::Result {
        f.write_str(match self {
            Problem::Unknown => "no line begins with this word",
            Problem::Missing => "a word is missing",
            Problem::Extra => "there is a word too many",
            Problem::NoNumber => "a number is awaited",
            Problem::NoByte => "a byte in two hexadecimal digits is awaited",
            Problem::NoAddress => "an address is awaited",
            Problem::NoPrefix => "a prefix is awaited",
            Problem::NoPeer => "a peer is awaited, as 7@10.0.0.1",
            Problem::NotInSettings => "the settings have no such peer",
            Problem::TooLong => "it is too long for its frame",
            Problem::Shorter => "the message is shorter",
            Problem::NoEnd => "the text has no end",
            Problem::NoMessage => "no message comes behind",
            Problem::Memory => "there is no memory",
        })
    }
}

impl Error for Problem {}

impl From<AllocError> for Problem {
    fn from(_error: AllocError) -> Problem {
        Problem::Memory
    }
}

impl<T: Drop> From<AllocFailed<T>> for Problem {
    fn from(_error: AllocFailed<T>) -> Problem {
        Problem::Memory
    }
}
