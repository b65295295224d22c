//! Putting frames out.
ghost use Rattle.std.specs.Prelude.{◌≡◌};
ghost use Rattle.fault.specs.Fault.{code};
ghost use Rattle.message_write.specs.Written.{keepalive_bytes, notification_bytes, open_bytes};
ghost use Rattle.outbox.specs.Frames.{Carries, Closes};
ghost use Rattle.outbox.specs.Laws.{OutboxLaws};
ghost use Rattle.outbox.specs.Message.{bytes_of};
ghost use Rattle.outbox.specs.Outbox.{Begun, Flushes, PutsBy, SendsBy, box_of};
ghost use Rattle.peers.specs.Members.{is_member};

use crate::framing::{Kind, Message, ROOM, frame};
use crate::{Outbox, Output};
use fault::Fault;
use message_laws::sendable_law;
use peers::PeerSet;
use prefix::Prefix;
use route::Route;
use telling::Sink;

impl<O: Output> Outbox<O> {
    /// An outbox of the server of that network and address. Nobody has been reached.
    pub fn new(output: O, own_asn: u32, address: u32) -> Outbox<O>
        ensures { Begun output own_asn address (box_of result) }
    {
        Outbox {
            output,
            own_asn,
            address,
            reached: PeerSet::none(),
        }
    }

    /// From here on nobody has been reached.
    pub fn begin(&mut self)
        ensures { Begun self.old.output self.old.own_asn self.old.address (box_of self.new) }
    {
        self.reached = PeerSet::none();
    }

    /// Whether a message was carried to the peer since the outbox began.
    pub fn has_reached(&self, peer: u8) -> bool
        ensures { result ≡ is_member self.now.reached peer }
    {
        self.reached.contains(peer)
    }

    /// To which peers a message was carried since the outbox began.
    pub fn reached(&self) -> &PeerSet
        ensures { result.now ≡ self.now.reached }
    {
        &self.reached
    }

    pub fn output(&self) -> &O
        ensures { result.now ≡ self.now.output }
    {
        &self.output
    }

    /// Hands on what the output holds back.
    pub fn flush(&mut self)
        ensures { Flushes O.Output.writes (box_of self.old) (box_of self.new) }
    {
        self.output.flush();
    }

    /// The server's OPEN.
    pub fn open(&mut self, peer: u8)
        ensures { PutsBy O.Output.writes self.old (Carries peer (open_bytes self.old.own_asn self.old.address)) self.new }
    {
        self.carry(peer, &Message::Open);
    }

    pub fn keepalive(&mut self, peer: u8)
        ensures { PutsBy O.Output.writes self.old (Carries peer keepalive_bytes) self.new }
    {
        self.carry(peer, &Message::Keepalive);
    }

    /// A NOTIFICATION that says for which fault the session ends.
    pub fn notify(&mut self, peer: u8, fault: Fault)
        ensures { PutsBy O.Output.writes self.old (Carries peer (notification_bytes (code fault))) self.new }
    {
        self.carry(peer, &Message::Notification(fault));
    }

    /// The server takes the peer's session down.
    pub fn close(&mut self, peer: u8)
        ensures { PutsBy O.Output.writes self.old (Closes peer) self.new }
    {
        self.output.write(&[Kind::Closes.into(), peer]);
    }

    /// Carries a message to the peer.
    fn carry(&mut self, peer: u8, message: &Message)
        ensures { PutsBy O.Output.writes self.old (Carries peer (bytes_of self.old.own_asn self.old.address message.now)) self.new }
    {
        let mut buffer = [0; ROOM];
        let frame = frame(&mut buffer, peer, message, self.own_asn, self.address);
        self.output.write(frame);
        self.reached.set(peer, true);
    }
}

impl<O: Output> Sink for Outbox<O> {
    ghost sends = { SendsBy O.Output.writes };

    fn send(&mut self, peer: u8, prefix: Prefix, route: Option<&Route>) {
        match route {
            Some(route) => {
                sendable_law(route);
                self.carry(peer, &Message::Announcement(*route));
            }
            None => self.carry(peer, &Message::Withdrawal(prefix)),
        }
    }
}

impl<O: Output> Outbox<O> {
    /// What rows of updates and of frames come to.
    pub fn laws(&self)
        ensures { OutboxLaws O.Output.writes }
    {}
}
