//! The session of one peer: how far it has come up, and its two clocks.
#![tactic(auto)]

ghost use Rattle.std.specs.Prelude.{◌≡◌};
ghost use Rattle.session.specs.Meant.{session_of};
ghost use Rattle.session.specs.Session.{down, established, heard_now, is_down, is_established, is_keepalive_due, is_silent, later, opened, sent_now, ticked};

mod laws;

pub use laws::clock_laws;

/// A session on which nothing came for so many seconds goes down.
pub const HOLD_TIME: u8 = 90;

/// On an established session a message is sent every so many seconds.
pub const KEEPALIVE_TIME: u8 = 30;

/// How far a session has come up.
#[derive(Clone, Copy, Debug, PartialEq, Eq)]
pub enum Phase {
    /// There is no connection.
    Down,
    /// The server's OPEN is sent, and the peer's is awaited.
    OpenSent,
    /// Both OPENs have come.
    Established,
}

/// The session of one peer.
#[derive(Clone, Copy, Debug, PartialEq, Eq)]
pub struct Session {
    phase: Phase,
    /// Seconds since a message came or, if none did, since the connection came up.
    heard: u8,
    /// Seconds since a message was sent.
    sent: u8,
}

impl Session {
    /// A session at the start: down.
    pub fn new() -> Session
        ensures { session_of result ≡ down }
    {
        Session::fresh(Phase::Down)
    }

    /// A session that has just come so far: both clocks begin.
    fn fresh(phase: Phase) -> Session
        ensures { session_of result ≡ record { phase = phase; heard = 0; sent = 0 } }
    {
        Session {
            phase,
            heard: 0,
            sent: 0,
        }
    }

    /// The session goes down.
    pub fn down(self) -> Session
        ensures { session_of result ≡ down }
    {
        Session::new()
    }

    /// The connection comes up, and the server sends its OPEN. A session that is not down stays as it is.
    pub fn opened(self) -> Session
        ensures { session_of result ≡ opened (session_of self) }
    {
        if !self.is_down() {
            return self;
        }
        Session::fresh(Phase::OpenSent)
    }

    /// The peer's OPEN came and is right, and the server sends its first KEEPALIVE. A session on which no OPEN is
    /// awaited stays as it is.
    pub fn established(self) -> Session
        ensures { session_of result ≡ established (session_of self) }
    {
        if self.phase != Phase::OpenSent {
            return self;
        }
        Session::fresh(Phase::Established)
    }

    /// A message came.
    pub fn heard(self) -> Session
        ensures { session_of result ≡ heard_now (session_of self) }
    {
        Session { heard: 0, ..self }
    }

    /// A message was sent.
    pub fn sent(self) -> Session
        ensures { session_of result ≡ sent_now (session_of self) }
    {
        Session { sent: 0, ..self }
    }

    /// A second passed. A session that is down stays as it is.
    pub fn tick(self) -> Session
        ensures { session_of result ≡ ticked (session_of self) }
    {
        if self.is_down() {
            return self;
        }
        Session {
            heard: later(self.heard),
            sent: later(self.sent),
            ..self
        }
    }

    /// Whether there is no connection.
    pub fn is_down(self) -> bool
        ensures { result ≡ is_down (session_of self) }
    {
        self.phase == Phase::Down
    }

    /// Whether both OPENs have come.
    pub fn is_established(self) -> bool
        ensures { result ≡ is_established (session_of self) }
    {
        self.phase == Phase::Established
    }

    /// Whether nothing came for the hold time, on a session that is not down.
    pub fn is_silent(self) -> bool
        ensures { result ≡ is_silent (session_of self) }
    {
        !self.is_down() && self.heard >= HOLD_TIME
    }

    /// Whether it is established, and nothing was sent for the time after which a KEEPALIVE goes.
    pub fn is_keepalive_due(self) -> bool
        ensures { result ≡ is_keepalive_due (session_of self) }
    {
        self.is_established() && self.sent >= KEEPALIVE_TIME
    }

    /// How far it has come up.
    pub fn phase(self) -> Phase
        ensures { result ≡ (session_of self).phase }
    {
        self.phase
    }
}

/// What a clock shows a second later. It stops at the hold time.
fn later(seconds: u8) -> u8
    ensures { result ≡ later seconds }
{
    seconds.saturating_add(1).min(HOLD_TIME)
}
