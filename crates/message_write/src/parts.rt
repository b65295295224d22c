//! The parts of an UPDATE.
ghost use Rattle.std.specs.Prelude.{◌≡◌, ℕ, ◌+◌, ◌*◌, ◌≤◌, true, length};
ghost use Rattle.message_write.specs.Put.{Puts};
ghost use Rattle.message_write.specs.Written.{attributes_bytes, communities_bytes, number_bytes, path_bytes, prefix_bytes};
ghost use Rattle.prefix.specs.Meant.{meant};
ghost use Rattle.route.specs.Meant.{route_of};

use crate::Writer;
use prefix::Prefix;
use route::{Route, formed_law};
use wire::first;
use wire::flags::{OPTIONAL, TRANSITIVE};

/// How many bytes the prefix takes.
#[tactic(auto, using(crate::proofs::Sizes::prefix_lengths))]
pub fn prefix_size(prefix: &Prefix) -> usize
    ensures value { result ≡ length (prefix_bytes (meant prefix.now)) }
    ensures bound { result ≤ 4 }
{
    1 + (usize::from(prefix.length()) + 7) / 8
}

/// How many bytes the attributes of the route take, with any next hop.
#[tactic(auto, using(crate::proofs::Sizes::attribute_lengths))]
pub fn attributes_size(route: &Route) -> usize
    ensures value { (hop : ℕ) → result ≡ length (attributes_bytes (route_of route.now) hop) }
    ensures bound { result ≤ 190 }
{
    formed_law(route);
    23 + 4 * route.path.len() + communities_size(route.communities.as_slice())
}

#[tactic(auto, using(crate::proofs::Sizes::attribute_lengths))]
fn communities_size(communities: &[u32]) -> usize
    requires { length communities.now ≤ 8 }
    ensures value { result ≡ length (communities_bytes communities.now) }
    ensures bound { result ≤ 35 }
{
    if communities.is_empty() {
        0
    } else {
        3 + 4 * communities.len()
    }
}

impl Writer<'_> {
    #[tactic(auto, using(crate::proofs::Puts::join), unfolding(crate::specs::Written::prefix_bytes))]
    pub fn put_prefix(&mut self, prefix: &Prefix)
        requires { self.old.end + length (prefix_bytes (meant prefix.now)) ≤ length self.old.buffer.now }
        ensures { Puts (prefix_bytes (meant prefix.now)) self.old self.new }
    {
        let bits = prefix.length();
        let address = prefix.address().to_be_bytes();
        self.put_bytes(&[bits]);
        self.put_bytes(first(&address, (usize::from(bits) + 7) / 8));
    }

    /// The attributes of the route, in rising order of their types.
    #[tactic(auto, using(crate::proofs::Sizes::attribute_lengths))]
    pub fn put_attributes(&mut self, route: &Route, next_hop: u32)
        requires { self.old.end + length (attributes_bytes (route_of route.now) next_hop) ≤ length self.old.buffer.now }
        ensures { Puts (attributes_bytes (route_of route.now) next_hop) self.old self.new }
    {
        formed_law(route);
        let path = route.path.asns();
        let communities = route.communities.as_slice();
        self.put_bytes(&[TRANSITIVE, 1, 1, 0]);
        self.put_path(path);
        self.put_attribute(TRANSITIVE, 3, next_hop);
        self.put_attribute(OPTIONAL, 4, route.metrics.med);
        self.put_communities(communities);
    }

    #[tactic(auto, using(crate::proofs::Puts::parts), unfolding(crate::specs::Written::path_bytes))]
    fn put_path(&mut self, asns: &[u32])
        requires { (self.old.end + length (path_bytes asns.now) ≤ length self.old.buffer.now) × (length asns.now ≤ 32) }
        ensures { Puts (path_bytes asns.now) self.old self.new }
    {
        let count = asns.len();
        self.put_bytes(&[TRANSITIVE, 2, (2 + 4 * count) as u8, 2, count as u8]);
        self.put_numbers(asns);
    }

    /// An attribute whose value is a number of 4 bytes.
    #[tactic(auto, using(crate::proofs::Puts::join))]
    fn put_attribute(&mut self, flags: u8, kind: u8, value: u32)
        requires { self.old.end + 7 ≤ length self.old.buffer.now }
        ensures { Puts (number_bytes flags kind value) self.old self.new }
    {
        self.put_bytes(&[flags, kind, 4]);
        self.put_number(value);
    }

    #[tactic(auto, using(crate::proofs::Puts::parts), unfolding(crate::specs::Written::communities_bytes))]
    fn put_communities(&mut self, communities: &[u32])
        requires { (self.old.end + length (communities_bytes communities.now) ≤ length self.old.buffer.now) × (length communities.now ≤ 8) }
        ensures { Puts (communities_bytes communities.now) self.old self.new }
    {
        let count = communities.len();
        if count == 0 {
            return;
        }
        self.put_bytes(&[OPTIONAL | TRANSITIVE, 8, (4 * count) as u8]);
        self.put_numbers(communities);
    }
}
