//! Frames in a buffer: a head of 4 bytes, and the message behind it.
ghost use Rattle.std.specs.Prelude.{◌≡◌, ◌+◌, ◌≤◌, length as count, take, drop};
ghost use Rattle.message_write.specs.Put.{Wrote};
ghost use Rattle.outbox.specs.Frames.{Carries, frame_bytes, number};
ghost use Rattle.outbox.specs.Message.{bytes_of};

use fault::Fault;
use message_write::{
    write_announcement, write_keepalive, write_notification, write_open, write_withdrawal,
};
use prefix::Prefix;
use route::{Route, formed_law};

/// What a frame is for.
#[derive(Clone, Copy, Debug, PartialEq, Eq)]
pub enum Kind {
    /// It carries a message.
    Carries,
    /// It says that a session is taken down.
    Closes,
}

impl From<Kind> for u8 {
    ghost from_gives = { λ kind byte. byte ≡ number kind };

    fn from(kind: Kind) -> u8 {
        match kind {
            Kind::Carries => 16,
            Kind::Closes => 17,
        }
    }
}

/// There is room for every frame that is put out: no message has more than 256 bytes.
pub const ROOM: usize = 260;

/// A message that is put out.
#[derive(Clone, Copy)]
pub enum Message {
    Open,
    Keepalive,
    Notification(Fault),
    Withdrawal(Prefix),
    Announcement(Route),
}

/// Makes a frame with the message, at the front of the buffer.
pub fn frame<'a>(
    buffer: &'a mut [u8; ROOM],
    peer: u8,
    message: &Message,
    own_asn: u32,
    address: u32,
) -> &'a [u8]
    ensures { result.now ≡ frame_bytes (Carries peer (bytes_of own_asn address message.now)) }
{
    let length = message.write(&mut buffer[4..], own_asn, address).unwrap();
    enclose(buffer, peer, length)
}

impl Message {
    /// Writes the message at the front of the buffer, and says how long it is; where there is no room for it, nothing is written.
    #[tactic(auto, using(crate::proofs::Shortness::shortness))]
    fn write(&self, buffer: &mut [u8], own_asn: u32, address: u32) -> Option<usize>
        ensures wrote { Wrote (bytes_of own_asn address self.now) buffer.old buffer.new result }
        ensures short { count (bytes_of own_asn address self.now) ≤ 256 }
    {
        match self {
            Message::Open => write_open(buffer, own_asn, address),
            Message::Keepalive => write_keepalive(buffer),
            Message::Notification(fault) => write_notification(buffer, *fault),
            Message::Withdrawal(prefix) => write_withdrawal(buffer, prefix),
            Message::Announcement(route) => {
                formed_law(route);
                write_announcement(buffer, route, address)
            }
        }
    }
}

/// Puts the head of a frame in front of the message that stands behind it.
fn enclose(buffer: &mut [u8; ROOM], peer: u8, length: usize) -> &[u8]
    requires { length ≤ 256 }
    ensures { result.now ≡ frame_bytes (Carries peer (take length (drop 4 buffer.old))) }
{
    let [high, low] = (length as u16).to_be_bytes();
    buffer[..4].copy_from_slice(&[Kind::Carries.into(), peer, high, low]);
    &buffer[..4 + length]
}
