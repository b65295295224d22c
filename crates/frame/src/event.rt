//! What a frame says, and why one is passed over or cannot be read.
ghost use Rattle.std.specs.Prelude.{◌≡◌};
ghost use Rattle.frame.specs.Faults.{refusal_fault, defect_fault};
ghost use Rattle.frame.specs.declared.event.Unread.TheVariants.{Unreadable};

use fault::Fault;

/// What a frame says to a server that has settings.
#[derive(Clone, Copy)]
pub enum Event<'a> {
    /// A BGP message from a peer.
    Message { peer: u8, bytes: &'a [u8] },
    /// The connection to a peer is there.
    Up { peer: u8 },
    /// The connection to a peer is lost.
    Down { peer: u8 },
    /// A second has passed.
    Tick,
    /// A policy text for all peers.
    PolicyText { text: &'a [u8] },
}

/// Why a frame is passed over.
#[derive(Clone, Copy, Debug, PartialEq, Eq)]
pub enum Refusal {
    /// It is no settings frame, and no settings are in force yet.
    NoSettings,
    /// It is a settings frame, and settings are in force.
    SettingsAgain,
    /// It is a settings frame with more than 64 peers.
    TooManyPeers,
    /// It is a policy text of more than 65,536 bytes.
    TextTooLong,
}

/// Why a frame cannot be read. Nothing more is read then.
#[derive(Clone, Copy, Debug, PartialEq, Eq)]
pub enum Defect {
    /// No frame begins with such a byte.
    UnknownKind,
    /// The settings in force have no such peer.
    UnknownPeer,
    /// It says neither that a connection is there nor that it is lost.
    UnknownState,
    /// The input ends inside it.
    Cut,
}

/// A whole frame of `size` bytes, and what it says.
#[derive(Clone, Copy, Debug, PartialEq, Eq)]
pub struct Whole<T> {
    pub content: T,
    pub size: usize,
}

/// What the bytes at hand begin with where no frame is taken.
#[derive(Clone, Copy, Debug, PartialEq, Eq)]
pub enum Unread {
    /// A frame of `size` bytes that is passed over. Not all of them need be at hand.
    Refused { refusal: Refusal, size: usize },
    /// A part of a frame: more bytes are needed.
    More,
    /// A frame that cannot be read.
    Unreadable { defect: Defect },
}

/// What the bytes at hand begin with.
pub type Reading<T> = Result<Whole<T>, Unread>;

impl From<Defect> for Unread {
    ghost from_gives = { λ defect unread. unread ≡ Unreadable defect };

    fn from(defect: Defect) -> Unread {
        Unread::Unreadable { defect }
    }
}

impl Refusal {
    /// The fault that a frame passed over is.
    pub fn fault(self) -> Fault
        ensures { result ≡ refusal_fault self }
    {
        match self {
            Refusal::TextTooLong => Fault::PolicyText,
            Refusal::NoSettings | Refusal::SettingsAgain | Refusal::TooManyPeers => Fault::Frame,
        }
    }
}

impl Defect {
    /// The fault that a frame which cannot be read is.
    pub fn fault(self) -> Fault
        ensures { result ≡ defect_fault self }
    {
        Fault::Frame
    }
}
