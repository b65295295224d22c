//! A second passes.
ghost use Rattle.std.specs.Prelude.{◌≡◌};
ghost use Rattle.frame.specs.Frame.{tick};
ghost use Rattle.outbox.specs.Outbox.{PutsAll};
ghost use Rattle.peers.specs.Members.{is_member};
ghost use Rattle.sessions.specs.Sessions.{sessions_of};
ghost use Rattle.speaker.specs.State.{Handles};
ghost use Rattle.speaker_model.specs.World.{any_below, down_frames, keepalives};

use crate::Speaker;
use crate::closing::end_session;
use fault::Fault;
use outbox::{Outbox, Output};
use peers::PeerSet;
use rib::Rib;
use sessions::Sessions;

impl<R: Rib, O: Output> Speaker<R, O> {
    /// The sessions whose time ran out go down, all at one moment.
    pub(crate) fn tick(&mut self)
        ensures { Handles R.Rib.received O.Output.writes tick self.old self.new }
    {
        let peers = self.settings.peer_count();
        let silent = self.sessions.tick();
        end_sessions(&mut self.outbox, &silent, peers);
        if any_below(&silent, peers) {
            self.server.take_down(&mut self.outbox, &silent);
        }
    }
}

/// Tells each peer of a set, of those below `peers`, that its session ends, since nothing came on it.
#[tactic(auto, using(crate::proofs::Ticks::downs))]
fn end_sessions<O: Output>(outbox: &mut Outbox<O>, silent: &PeerSet, peers: u8)
    ensures { PutsAll O.Output.writes outbox.old (down_frames 13 (is_member silent.now) peers) outbox.new }
{
    for peer in 0..peers {
        if silent.contains(peer) {
            end_session(outbox, peer, Fault::HoldTimer);
        }
    }
}

/// Whether one of the peers below `peers` is of the set.
fn any_below(set: &PeerSet, peers: u8) -> bool
    ensures { result ≡ any_below peers (is_member set.now) }
{
    (0..peers).any(|peer| set.contains(peer))
}

/// A KEEPALIVE to each peer below `peers` to which one is due.
#[tactic(auto, using(crate::proofs::Ticks::alives))]
pub(crate) fn keep_alive<O: Output>(outbox: &mut Outbox<O>, sessions: &Sessions, peers: u8)
    ensures { PutsAll O.Output.writes outbox.old (keepalives (sessions_of sessions.now) peers) outbox.new }
{
    for peer in 0..peers {
        if sessions.get(peer).is_keepalive_due() {
            outbox.keepalive(peer);
        }
    }
}
