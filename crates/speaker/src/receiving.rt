//! Messages of peers.
ghost use Rattle.std.specs.Prelude.{◌≡◌};
ghost use Rattle.attributes.specs.Meant.{peer_of, reading_of};
ghost use Rattle.frame.specs.Settings.{exchange};
ghost use Rattle.message.specs.Meant.{message_of};
ghost use Rattle.session.specs.Session.{heard_now};
ghost use Rattle.speaker.specs.State.{AwaitsOpen, Does, NotDown, session_in};
ghost use Rattle.speaker_model.specs.Effects.{awaited_effect, coming_up, established_effect, message_effect, nothing, taken_effect, update_effect};
ghost use Rattle.speaker_model.specs.World.{member_of};
ghost use Rattle.update.specs.Meant.{content_meant};

use crate::Speaker;
use fault::Fault;
use message::{Content, Message, Peer, State, read};
use outbox::Output;
use rib::Rib;
use session::{Phase, Session};
use update_events::Saying;

impl<R: Rib, O: Output> Speaker<R, O> {
    /// A message comes from a peer. On a session that is down it is dropped.
    pub(crate) fn receive(&mut self, peer: u8, message: &[u8])
        ensures { Does R.Rib.received O.Output.writes peer (message_effect (member_of (exchange self.old.settings) peer) peer (R.Rib.received self.old.server.rib) message.now (session_in self.old peer)) self.old self.new }
    {
        let member = self.member(peer);
        match self.sessions.get(peer).phase() {
            Phase::Down => {}
            Phase::OpenSent => self.take_awaited(peer, read(State::OpenSent, member, message)),
            Phase::Established => {
                self.take_established(peer, message, read(State::Established, member, message));
            }
        }
    }

    /// The peer of that number, as its messages are read.
    fn member(&self, peer: u8) -> Peer
        ensures { peer_of result ≡ member_of (exchange self.now.settings) peer }
    {
        match self.settings.peer(peer) {
            Some(member) => Peer {
                asn: member.asn,
                address: member.address,
            },
            None => Peer { asn: 0, address: 0 },
        }
    }

    /// What was read while the peer's OPEN is awaited.
    fn take_awaited(&mut self, peer: u8, reading: Result<Message, Fault>)
        requires { AwaitsOpen self.old peer }
        ensures { Does R.Rib.received O.Output.writes peer (awaited_effect peer (session_in self.old peer) (reading_of message_of reading)) self.old self.new }
    {
        match reading {
            Err(fault) => self.fail(peer, fault),
            Ok(Message::Open(_)) => self.establish(peer),
            Ok(Message::Notification(_, _)) => self.end(peer),
            Ok(Message::Update(_)) => self.fail(peer, Fault::NotEstablished),
            Ok(Message::Keepalive) => self.fail(peer, Fault::NotEstablished),
        }
    }

    /// What was read on an established session.
    fn take_established(&mut self, peer: u8, message: &[u8], reading: Result<Message, Fault>)
        requires { NotDown self.old peer }
        ensures { Does R.Rib.received O.Output.writes peer (established_effect peer (R.Rib.received self.old.server.rib) message.now (session_in self.old peer) (reading_of message_of reading)) self.old self.new }
    {
        match reading {
            Err(fault) => self.fail(peer, fault),
            Ok(read) => self.take_message(peer, message, read),
        }
    }

    /// A message that was read on an established session.
    fn take_message(&mut self, peer: u8, message: &[u8], read: Message)
        requires { NotDown self.old peer }
        ensures { Does R.Rib.received O.Output.writes peer (taken_effect peer (R.Rib.received self.old.server.rib) message.now (session_in self.old peer) (message_of read)) self.old self.new }
    {
        match read {
            Message::Open(_) => self.fail(peer, Fault::Open),
            Message::Update(content) => self.update(peer, content, message),
            Message::Notification(_, _) => self.end(peer),
            Message::Keepalive => self.hear(peer),
        }
    }

    /// The peer's OPEN is right: its session is up, and it is told from the start.
    fn establish(&mut self, peer: u8)
        requires { AwaitsOpen self.old peer }
        ensures { Does R.Rib.received O.Output.writes peer (coming_up peer (session_in self.old peer)) self.old self.new }
    {
        self.sessions.change(peer, Session::established);
        self.outbox.keepalive(peer);
        let _ = self.server.establish(&mut self.outbox, peer);
    }

    /// Something came from the peer.
    fn hear(&mut self, peer: u8)
        ensures { Does R.Rib.received O.Output.writes peer (nothing (heard_now (session_in self.old peer))) self.old self.new }
    {
        self.sessions.change(peer, Session::heard);
    }

    /// An UPDATE comes: refused whole where it needs more room than is left, else what it says of each prefix is taken.
    fn update(&mut self, peer: u8, content: Content, message: &[u8])
        requires { NotDown self.old peer }
        ensures { Does R.Rib.received O.Output.writes peer (update_effect peer (R.Rib.received self.old.server.rib) message.now (session_in self.old peer) (content_meant content)) self.old self.new }
    {
        let saying = Saying {
            peer,
            content: &content,
            message,
        };
        if saying.lacks_room(self.server.rib()) {
            self.fail(peer, Fault::Capacity);
            return;
        }
        self.sessions.change(peer, Session::heard);
        saying.say(&mut self.server, &mut self.outbox);
    }
}
