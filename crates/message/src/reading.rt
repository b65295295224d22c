//! Reading a message.
ghost use Rattle.std.specs.Prelude.{◌≡◌};
ghost use Rattle.attributes.specs.Meant.{peer_of, reading_of};
ghost use Rattle.message.specs.Meant.{message_of};
ghost use Rattle.message.specs.Message.{read_body, read_message};

use crate::header::read_header;
use crate::opens::read_open;
use crate::{Kind, Message, State};
use attributes::Peer;
use fault::Fault;
use update::read_update;
use wire::byte_at;

/// The message that the bytes are, or the fault that ends the reading.
pub fn read(state: State, peer: Peer, message: &[u8]) -> Result<Message, Fault>
    ensures { reading_of message_of result ≡ read_message state (peer_of peer) message.now }
{
    let Some(kind) = read_header(message) else {
        return Err(Fault::Header);
    };
    read_body(state, peer, message, kind)
}

fn read_body(state: State, peer: Peer, message: &[u8], kind: Kind) -> Result<Message, Fault>
    ensures { reading_of message_of result ≡ read_body state (peer_of peer) message.now kind }
{
    match (kind, state) {
        (Kind::Open, State::OpenSent) => Ok(Message::Open(read_open(message, peer)?)),
        (Kind::Open, State::Established) => Err(Fault::Open),
        (Kind::Update, State::Established) => { Ok(Message::Update(read_update(message, peer)?)) }
        (Kind::Keepalive, State::Established) => Ok(Message::Keepalive),
        (Kind::Update | Kind::Keepalive, State::OpenSent) => Err(Fault::NotEstablished),
        (Kind::Notification, _) => Ok(Message::Notification(
            byte_at(message, 19),
            byte_at(message, 20),
        )),
    }
}
