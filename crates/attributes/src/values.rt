//! What an attribute says.
ghost use Rattle.std.specs.Prelude.{◌≡◌, length, if◌then◌else◌, nat_eq, nat_le};
ghost use Rattle.attributes.specs.AsPath.{fault as failed, got};
ghost use Rattle.attributes.specs.Meaning.{read_attribute, read_value, Communities as InCommunities, NextHop as InNextHop};
ghost use Rattle.attributes.specs.Meant.{meaning_of, peer_of, reading_of};
ghost use Rattle.route.specs.Numbers.{sorted};
ghost use Rattle.wire.specs.Bytes.{numbers, u32_of};

use crate::as_paths::read_path;
use crate::kinds::{has_form, value_of};
use crate::numbers::push_numbers;
use crate::{Kind, Peer, Value};
use arrayvec::ArrayVec;
use fault::Fault;
use route::Communities;
use wire::{byte_at, u32_of};

/// What the attribute says, or what is wrong with it.
#[tactic(auto, unfolding(crate::specs::Meaning::read_attribute))]
pub fn read_attribute(attribute: &[u8], peer: Peer) -> Result<Value, Fault>
    ensures { reading_of meaning_of result ≡ read_attribute (peer_of peer) attribute.now }
{
    if !has_form(attribute) {
        return Err(Fault::Attribute);
    }
    read_value(Kind::from(byte_at(attribute, 1)), value_of(attribute), peer)
}

/// The value of an attribute of the right form.
fn read_value(kind: Kind, value: &[u8], peer: Peer) -> Result<Value, Fault>
    ensures { reading_of meaning_of result ≡ read_value (peer_of peer) kind value.now }
{
    match kind {
        Kind::AsPath => Ok(Value::Path(read_path(value, peer.asn)?)),
        Kind::NextHop => read_next_hop(value, peer.address),
        Kind::Med => Ok(Value::Med(u32_of(value))),
        Kind::Communities => read_communities(value),
        Kind::Origin | Kind::LocalPref | Kind::Other => Ok(Value::Unused),
    }
}

/// A next hop is the peer's address.
fn read_next_hop(value: &[u8], address: u32) -> Result<Value, Fault>
    ensures { reading_of meaning_of result ≡ (if nat_eq (u32_of value.now) address then got InNextHop else failed 7) }
{
    if u32_of(value) == address {
        Ok(Value::NextHop)
    } else {
        Err(Fault::NextHop)
    }
}

/// Up to 8 communities, in rising order, each once.
#[tactic(auto, unfolding(crate::specs::Gathering::with_numbers))]
fn read_communities(value: &[u8]) -> Result<Value, Fault>
    ensures { reading_of meaning_of result ≡ (if nat_le (length (numbers value.now)) 8 then got (InCommunities (sorted (numbers value.now))) else failed 6) }
{
    let mut row = ArrayVec::<u32, 8>::new();
    push_numbers(&mut row, value)?;
    let communities = Communities::of(row.as_slice()).ok_or(Fault::Value)?;
    Ok(Value::Communities(communities))
}
