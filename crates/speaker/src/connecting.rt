//! Connections that come and go.
ghost use Rattle.frame.specs.Frame.{down, up};
ghost use Rattle.speaker.specs.State.{Handles};

use crate::Speaker;
use outbox::Output;
use rib::Rib;
use session::Session;

impl<R: Rib, O: Output> Speaker<R, O> {
    /// The connection to a peer is there: on a session that is down the server sends its OPEN.
    pub(crate) fn connect(&mut self, peer: u8)
        ensures { Handles R.Rib.received O.Output.writes (up peer) self.old self.new }
    {
        if peer >= self.settings.peer_count() {
            return;
        }
        if !self.sessions.get(peer).is_down() {
            return;
        }
        self.sessions.change(peer, Session::opened);
        self.outbox.open(peer);
    }

    /// The connection to a peer is lost.
    pub(crate) fn lose(&mut self, peer: u8)
        ensures { Handles R.Rib.received O.Output.writes (down peer) self.old self.new }
    {
        if self.sessions.get(peer).is_down() {
            return;
        }
        self.go_down(peer);
    }
}
