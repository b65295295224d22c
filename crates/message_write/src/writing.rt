//! The messages that are sent. Each is written at the front of the lent buffer, and its length is answered; where there is no room for it, nothing is written.
ghost use Rattle.std.specs.Prelude.{◌≡◌, ◌+◌, ◌≤◌, length as count};
ghost use Rattle.fault.specs.Fault.{code};
ghost use Rattle.message_write.specs.Put.{Puts, Wrote};
ghost use Rattle.message_write.specs.Written.{announcement_bytes, keepalive_bytes, notification_bytes, open_body, open_bytes, short_asn, withdrawal_bytes};
ghost use Rattle.prefix.specs.Meant.{meant};
ghost use Rattle.route.specs.Meant.{route_of};

use crate::Writer;
use crate::parts::{attributes_size, prefix_size};
use fault::Fault;
use prefix::Prefix;
use route::Route;
use wire::Kind;

pub fn write_keepalive(buffer: &mut [u8]) -> Option<usize>
    ensures { Wrote keepalive_bytes buffer.old buffer.new result }
{
    if buffer.len() < 19 {
        return None;
    }
    let mut message = Writer { buffer, end: 0 };
    message.put_header(Kind::Keepalive, 19);
    Some(message.end)
}

/// A NOTIFICATION that ends the session for a fault.
pub fn write_notification(buffer: &mut [u8], fault: Fault) -> Option<usize>
    ensures { Wrote (notification_bytes (code fault)) buffer.old buffer.new result }
{
    if buffer.len() < 21 {
        return None;
    }
    let mut message = Writer { buffer, end: 0 };
    message.put_header(Kind::Notification, 21);
    message.put_bytes(&[6, u8::from(fault)]);
    Some(message.end)
}

/// An OPEN of the own network and address.
pub fn write_open(buffer: &mut [u8], asn: u32, address: u32) -> Option<usize>
    ensures { Wrote (open_bytes asn address) buffer.old buffer.new result }
{
    if buffer.len() < 43 {
        return None;
    }
    let mut message = Writer { buffer, end: 0 };
    message.put_header(Kind::Open, 43);
    message.put_open(asn, address);
    Some(message.end)
}

impl Writer<'_> {
    fn put_open(&mut self, asn: u32, address: u32)
        requires { self.old.end + 24 ≤ count self.old.buffer.now }
        ensures { Puts (open_body asn address) self.old self.new }
    {
        self.put_bytes(&[4]);
        self.put_bytes(&short_asn(asn).to_be_bytes());
        self.put_bytes(&[0, 90]);
        self.put_number(address);
        self.put_bytes(&[14, 2, 12, 1, 4, 0, 1, 0, 1, 65, 4]);
        self.put_number(asn);
    }
}

/// The network in 2 bytes, or what stands in its place.
fn short_asn(asn: u32) -> u16
    ensures { result ≡ short_asn asn }
{
    u16::try_from(asn).unwrap_or(23456)
}

/// An UPDATE that withdraws one prefix.
pub fn write_withdrawal(buffer: &mut [u8], prefix: &Prefix) -> Option<usize>
    ensures { Wrote (withdrawal_bytes (meant prefix.now)) buffer.old buffer.new result }
{
    let length = prefix_size(prefix);
    let size = 23 + length;
    if buffer.len() < size {
        return None;
    }
    let mut message = Writer { buffer, end: 0 };
    message.put_header(Kind::Update, size as u16);
    message.put_bytes(&(length as u16).to_be_bytes());
    message.put_prefix(prefix);
    message.put_bytes(&[0, 0]);
    Some(message.end)
}

/// An UPDATE that announces one route, by a next hop.
pub fn write_announcement(buffer: &mut [u8], route: &Route, next_hop: u32) -> Option<usize>
    ensures { Wrote (announcement_bytes (route_of route.now) next_hop) buffer.old buffer.new result }
{
    let attributes = attributes_size(route);
    let size = 23 + attributes + prefix_size(&route.prefix);
    if buffer.len() < size {
        return None;
    }
    let mut message = Writer { buffer, end: 0 };
    message.put_header(Kind::Update, size as u16);
    message.put_bytes(&[0, 0]);
    message.put_bytes(&(attributes as u16).to_be_bytes());
    message.put_attributes(route, next_hop);
    message.put_prefix(&route.prefix);
    Some(message.end)
}
