//! OPEN messages.
ghost use Rattle.std.specs.Prelude.{◌≡◌, ℕ, Bool, List, Option};
ghost use Rattle.attributes.specs.Meant.{peer_of, reading_of};
ghost use Rattle.message.specs.Meant.{open_of};
ghost use Rattle.message.specs.Open.{capability_offer, field_size, is_asn, is_hold_time, is_open, offers, parameter_offer, read_open, Says};

use crate::Open;
use attributes::Peer;
use fault::Fault;
use wire::{byte_at, cut, skip, u16_of, u32_of};

/// The capability of networks in 4 bytes, and the parameter that holds capabilities.
const FOUR_OCTET_ASN: u8 = 65;

const CAPABILITIES: u8 = 2;

/// What stands in place of a network that does not fit 2 bytes.
const AS_TRANS: u16 = 23456;

/// An OPEN that is the peer's.
#[tactic(auto, unfolding(crate::specs::Open::read_open))]
pub fn read_open(message: &[u8], peer: Peer) -> Result<Open, Fault>
    ensures { reading_of open_of result ≡ read_open (peer_of peer) message.now }
{
    if !is_open(message, peer) {
        return Err(Fault::Open);
    }
    Ok(Open {
        hold_time: u16_of(skip(message, 22)),
        identifier: u32_of(skip(message, 24)),
    })
}

fn is_open(message: &[u8], peer: Peer) -> bool
    ensures { result ≡ is_open (peer_of peer) message.now }
{
    byte_at(message, 19) == 4
        && is_asn(u16_of(skip(message, 20)), peer.asn)
        && is_hold_time(u16_of(skip(message, 22)))
        && 29 + usize::from(byte_at(message, 28)) == message.len()
        && read_parameters(skip(message, 29), peer.asn).unwrap_or(false)
}

fn is_asn(field: u16, asn: u32) -> bool
    ensures { result ≡ is_asn asn field }
{
    u32::from(field) == asn || field == AS_TRANS
}

fn is_hold_time(seconds: u16) -> bool
    ensures { result ≡ is_hold_time seconds }
{
    seconds == 90 || seconds == 0
}

/// Whether a parameter offers networks in 4 bytes; nothing where one is wrong.
fn read_parameters(parameters: &[u8], asn: u32) -> Option<bool>
    ensures { result ≡ offers (parameter_offer asn) parameters.now }
{
    offers(parameters, |parameter| parameter_offer(parameter, asn))
}

fn parameter_offer(parameter: &[u8], asn: u32) -> Option<bool>
    ensures { result ≡ parameter_offer asn parameter.now }
{
    if byte_at(parameter, 0) == CAPABILITIES {
        read_capabilities(skip(parameter, 2), asn)
    } else {
        Some(false)
    }
}

/// Whether a capability offers networks in 4 bytes; nothing where one is wrong.
fn read_capabilities(capabilities: &[u8], asn: u32) -> Option<bool>
    ensures { result ≡ offers (capability_offer asn) capabilities.now }
{
    offers(capabilities, |capability| capability_offer(capability, asn))
}

fn capability_offer(capability: &[u8], asn: u32) -> Option<bool>
    ensures { result ≡ capability_offer asn capability.now }
{
    if byte_at(capability, 0) != FOUR_OCTET_ASN {
        return Some(false);
    }
    if byte_at(capability, 1) == 4 && u32_of(skip(capability, 2)) == asn {
        Some(true)
    } else {
        None
    }
}

/// Whether one of the fields offers networks in 4 bytes, by what is to be said of each; nothing where one is wrong.
fn offers<F: Fn(&[u8]) -> Option<bool>>(fields: &[u8], offer: F) -> Option<bool>
    requires { F.IsAlwaysCallable offer }
    ensures { (says : List ℕ → Option Bool) → Says F.Fn offer says → result ≡ offers says fields.now }
{
    let mut found = false;
    let mut rest = fields;
    while !rest.is_empty() {
        let (field, after) = cut(rest, field_size(rest))?;
        found |= offer(field)?;
        rest = after;
    }
    Some(found)
}

/// How many bytes the first parameter or capability takes.
fn field_size(fields: &[u8]) -> usize
    ensures { result ≡ field_size fields.now }
{
    2 + usize::from(byte_at(fields, 1))
}
