//! Sessions that go down.
ghost use Rattle.std.specs.Prelude.{[], ◌∷◌};
ghost use Rattle.fault.specs.Fault.{code};
ghost use Rattle.outbox.specs.Frames.{Closes};
ghost use Rattle.outbox.specs.Outbox.{PutsAll};
ghost use Rattle.speaker.specs.State.{Does, NotDown};
ghost use Rattle.speaker_model.specs.Effects.{fault_frames, going_down, taken_down};

use crate::Speaker;
use fault::Fault;
use outbox::{Outbox, Output};
use peers::PeerSet;
use rib::Rib;
use session::Session;

impl<R: Rib, O: Output> Speaker<R, O> {
    /// Takes the session of a peer down for a fault: the peer is told which, and all others what is new.
    pub(crate) fn fail(&mut self, peer: u8, fault: Fault)
        requires { NotDown self.old peer }
        ensures { Does R.Rib.received O.Output.writes peer (taken_down peer (code fault)) self.old self.new }
    {
        end_session(&mut self.outbox, peer, fault);
        self.go_down(peer);
    }

    /// Takes the session of a peer down that has sent a NOTIFICATION: none goes back.
    pub(crate) fn end(&mut self, peer: u8)
        requires { NotDown self.old peer }
        ensures { Does R.Rib.received O.Output.writes peer (going_down peer (Closes peer ∷ [])) self.old self.new }
    {
        self.outbox.close(peer);
        self.go_down(peer);
    }

    /// The session of a peer goes down: what it announced is gone, and all others are told what is new.
    pub(crate) fn go_down(&mut self, peer: u8)
        requires { NotDown self.old peer }
        ensures { Does R.Rib.received O.Output.writes peer (going_down peer []) self.old self.new }
    {
        self.sessions.change(peer, Session::down);
        self.server
            .take_down(&mut self.outbox, &PeerSet::only(peer));
    }
}

/// Tells a peer for which fault its session ends, and that it does.
pub(crate) fn end_session<O: Output>(outbox: &mut Outbox<O>, peer: u8, fault: Fault)
    ensures { PutsAll O.Output.writes outbox.old (fault_frames peer (code fault)) outbox.new }
{
    outbox.notify(peer, fault);
    outbox.close(peer);
}
