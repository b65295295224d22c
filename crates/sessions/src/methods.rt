//! Asking and changing sessions.
ghost use Rattle.std.specs.Prelude.{◌≡◌, ℕ, ◌&&◌, if◌then◌else◌, nat_lt};
ghost use Rattle.model.specs.Model.{at};
ghost use Rattle.peers.specs.Members.{is_member};
ghost use Rattle.session.specs.Meant.{session_of};
ghost use Rattle.session.specs.Session.{down, is_silent, sent_now};
ghost use Rattle.sessions.specs.Sessions.{Changes, sent_to, sessions_later, sessions_of, silent_in};

use crate::{COUNT, Sessions};
use peers::PeerSet;
use session::Session;

impl Sessions {
    /// At the start all sessions are down.
    pub fn new() -> Sessions
        ensures { (i : ℕ) → sessions_of result i ≡ down }
    {
        Sessions {
            row: [Session::new(); COUNT],
        }
    }

    #[tactic(auto, unfolding(crate::specs::Sessions::session_at))]
    pub fn get(&self, peer: u8) -> Session
        ensures { session_of result ≡ sessions_of self.now peer }
    {
        self.row[usize::from(peer)]
    }

    #[tactic(auto, using(crate::proofs::Rows::written))]
    pub fn set(&mut self, peer: u8, session: Session)
        ensures { (i : ℕ) → sessions_of self.new i ≡ at peer (session_of session) (sessions_of self.old) i }
    {
        self.row[usize::from(peer)] = session;
    }

    /// The session of a peer becomes what the step makes of it.
    pub fn change<F: FnOnce(Session) -> Session>(&mut self, peer: u8, step: F)
        requires { F.IsAlwaysCallable step }
        ensures { Changes F.post step peer self.old self.new }
    {
        let session = self.get(peer);
        self.set(peer, step(session));
    }

    /// A second passes: the sessions whose time ran out go down. Which peers' these are is the answer.
    pub fn tick(&mut self) -> PeerSet
        ensures sessions { (i : ℕ) → sessions_of self.new i ≡ sessions_later (sessions_of self.old) i }
        ensures silent { (i : ℕ) → is_member result i ≡ (nat_lt i 64 && silent_in (sessions_of self.old) i) }
    {
        let mut silent = PeerSet::none();
        // By number, as in `sent_to`: of what is written through `iter_mut` a proof knows nothing.
        for peer in 0..=u8::MAX {
            let session = self.get(peer).tick();
            silent.set(peer, session.is_silent());
            self.set(peer, unless_silent(session));
        }
        silent
    }

    /// Something was sent to the peers of a set.
    pub fn sent_to(&mut self, peers: &PeerSet)
        ensures { (i : ℕ) → sessions_of self.new i ≡ sent_to (is_member peers.now) (sessions_of self.old) i }
    {
        for peer in 0..=u8::MAX {
            let session = self.get(peer);
            self.set(peer, if_sent(session, peers.contains(peer)));
        }
    }
}

/// A session whose time ran out goes down.
fn unless_silent(session: Session) -> Session
    ensures { session_of result ≡ (if is_silent (session_of session) then down else session_of session) }
{
    if session.is_silent() {
        session.down()
    } else {
        session
    }
}

/// The clock of what was sent begins anew if something was.
fn if_sent(session: Session, sent: bool) -> Session
    ensures { session_of result ≡ (if sent then sent_now (session_of session) else session_of session) }
{
    if sent { session.sent() } else { session }
}
