//! The Adj-RIB-In, by what it holds: a table that keeps what each peer last announced of each prefix.
#![tactic(auto)]

ghost use Rattle.std.specs.Prelude.{◌≡◌, ◌<◌, ◌≤◌, true, ◌&&◌, Some, None, MatchOption, MatchResult, is_ok, nat_le, nat_lt};
ghost use Rattle.prefix.specs.Meant.{meant};
ghost use Rattle.prefix.specs.Prefix.{count, number};
ghost use Rattle.rib.specs.Received.{Announced, Received, Same, Silent, Unannounced, capacity, cleared, is_route, most_peers, stored, updated};
ghost use Rattle.route.specs.Meant.{route_of};
ghost use Rattle.std.specs.Option.{option_map};

use prefix::Prefix;
use route::Route;
use rows::Full;

pub trait Rib {
    ghost received: { Self → Received };

    /// What the peer last announced of the prefix.
    fn get(&self, peer: u8, prefix: Prefix) -> Option<&Route>
        ensures { option_map (λ x. route_of x.now) result ≡ received self.now peer (number (meant prefix)) };

    /// The lowest peer from `from` on and below `until` that has announced the prefix.
    fn next_peer(&self, prefix: Prefix, from: u8, until: u8) -> Option<u8>
        ensures { MatchOption result (Silent (received self.now) (number (meant prefix)) from until) (λ peer. (from ≤ peer) × (peer < until) × Silent (received self.now) (number (meant prefix)) from peer × (is_route (received self.now peer (number (meant prefix))) ≡ true)) };

    /// The lowest prefix from that number on that somebody has announced.
    fn next_prefix(&self, from: u32) -> Option<Prefix>
        ensures { MatchOption result (Unannounced (received self.now) from count) (λ prefix. (from ≤ number (meant prefix)) × Unannounced (received self.now) from (number (meant prefix)) × Announced (received self.now) (number (meant prefix))) };

    /// How many routes are kept.
    fn len(&self) -> usize
        ensures { result ≡ stored most_peers count (received self.now) };

    /// Keeps the route as what the peer last announced of its prefix; nothing is changed where there is no room or no such peer.
    fn put(&mut self, peer: u8, route: &Route) -> Result<(), Full>
        ensures fits { is_ok result ≡ (nat_lt peer most_peers && nat_le (stored most_peers count (updated peer (number (meant route.now.prefix)) (Some (route_of route.now)) (received self.old))) capacity) }
        ensures after { MatchResult result (λ _. Same (received self.new) (updated peer (number (meant route.now.prefix)) (Some (route_of route.now)) (received self.old))) (λ _. Same (received self.new) (received self.old)) };

    /// Forgets what the peer announced of the prefix.
    fn remove(&mut self, peer: u8, prefix: Prefix)
        ensures { Same (received self.new) (updated peer (number (meant prefix)) None (received self.old)) };

    /// Forgets all that the peer announced.
    fn clear(&mut self, peer: u8)
        ensures { Same (received self.new) (cleared peer (received self.old)) };
}
