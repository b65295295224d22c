//! Reading the attributes one by one.
ghost use Rattle.std.specs.Prelude.{◌≡◌};
ghost use Rattle.attributes.specs.AsPath.{fault as failed};
ghost use Rattle.attributes.specs.Layout.{type_of};
ghost use Rattle.attributes.specs.Meant.{meaning_of, peer_of, reading_of};
ghost use Rattle.fault.specs.Fault.{code};
ghost use Rattle.update.specs.Finding.{add, find_all, no_types, noted, nothing_found, read_once, take_reading, take_value, types_in, with_type};
ghost use Rattle.update.specs.Meant.{found_of};

use attributes::{Peer, Value, attribute_size, read_attribute};
use fault::Fault;
use route::{Communities, Path};
use std::mem;
use wire::{byte_at, cut};

/// The types of the attributes so far.
#[derive(Clone, Copy)]
pub struct Seen {
    types: [bool; 256],
}

impl Seen {
    #[tactic(auto, using(crate::proofs::Types::noting))]
    fn none() -> Seen
        ensures { types_in result.types ≡ no_types }
    {
        Seen {
            types: [false; 256],
        }
    }

    /// Notes a type, and says whether it was there before.
    #[tactic(auto, using(crate::proofs::Types::noting))]
    fn add(&mut self, number: u8) -> bool
        ensures before { result ≡ types_in self.old.types number }
        ensures after { types_in self.new.types ≡ with_type number (types_in self.old.types) }
    {
        mem::replace(&mut self.types[usize::from(number)], true)
    }
}

/// What the attributes so far say: the lowest of their faults, and their values.
#[derive(Clone, Copy)]
pub struct Found {
    pub seen: Seen,
    pub fault: Option<Fault>,
    pub path: Option<Path>,
    /// No value stands beside it: a next hop is the peer's address.
    pub has_next_hop: bool,
    pub med: u32,
    pub communities: Communities,
}

impl Found {
    fn nothing() -> Found
        ensures { found_of result ≡ nothing_found }
    {
        Found {
            seen: Seen::none(),
            fault: None,
            path: None,
            has_next_hop: false,
            med: 0,
            communities: Communities::none(),
        }
    }

    /// Notes a fault; of two the one with the lower number counts.
    pub fn note(&mut self, fault: Fault)
        ensures { found_of self.new ≡ take_reading (failed (code fault)) (found_of self.old) }
    {
        let lowest = match self.fault {
            Some(found) if u8::from(found) <= u8::from(fault) => found,
            _ => fault,
        };
        self.fault = Some(lowest);
    }

    /// Takes in one more attribute: what it says, or its fault.
    #[tactic(auto, unfolding(crate::specs::Finding::add))]
    fn add(&mut self, attribute: &[u8], peer: Peer)
        ensures { found_of self.new ≡ add (peer_of peer) (found_of self.old) attribute.now }
    {
        match self.read_once(attribute, peer) {
            Ok(value) => self.take_value(value),
            Err(fault) => self.note(fault),
        }
    }

    /// What an attribute says. One whose type was there before is a fault.
    fn read_once(&mut self, attribute: &[u8], peer: Peer) -> Result<Value, Fault>
        ensures reading { reading_of meaning_of result ≡ read_once ((found_of self.old).types (type_of attribute.now)) (peer_of peer) attribute.now }
        ensures noted { found_of self.new ≡ noted (type_of attribute.now) (found_of self.old) }
    {
        if self.seen.add(byte_at(attribute, 1)) {
            return Err(Fault::Attribute);
        }
        read_attribute(attribute, peer)
    }

    fn take_value(&mut self, value: Value)
        ensures { found_of self.new ≡ take_value (meaning_of value) (found_of self.old) }
    {
        match value {
            Value::Path(path) => self.path = Some(path),
            Value::NextHop => self.has_next_hop = true,
            Value::Med(med) => self.med = med,
            Value::Communities(communities) => self.communities = communities,
            Value::Unused => {}
        }
    }
}

/// What the attributes say; one that runs over their part is a fault that ends the reading.
#[tactic(auto, using(crate::proofs::Finds::finding))]
pub fn read_attributes(attributes: &[u8], peer: Peer) -> Result<Found, Fault>
    ensures { reading_of found_of result ≡ find_all (peer_of peer) nothing_found attributes.now }
{
    let mut found = Found::nothing();
    let mut rest = attributes;
    while !rest.is_empty() {
        let (attribute, after) = cut(rest, attribute_size(rest)).ok_or(Fault::Overrun)?;
        found.add(attribute, peer);
        rest = after;
    }
    Ok(found)
}
