//! Entries: making one, and looking for it by its key.
ghost use Rattle.std.specs.Prelude.{◌≡◌, ◌<◌, MatchOption, MatchResult};
ghost use Rattle.prefix.specs.Meant.{meant};
ghost use Rattle.prefix.specs.Prefix.{number};
ghost use Rattle.rib.specs.Received.{most_peers};
ghost use Rattle.table.specs.Steps.{AbsentLaws, FoundLaws};
ghost use Rattle.table.specs.Table.{FirstBetween, NoneBetween, Placed, key_of};

use crate::Table;
use crate::entry::Entry;
use prefix::Prefix;
use route::Route;

/// How far the keys of one peer for two prefixes that follow each other lie apart: more than there are peers.
pub const STRIDE: u64 = 256;

/// The key of what the peer announced of the prefix.
pub fn key_of(peer: u8, prefix: &Prefix) -> u64
    ensures { result ≡ key_of peer (number (meant prefix.now)) }
{
    u64::from(prefix.number()) * STRIDE + u64::from(peer)
}

impl Entry {
    /// What the peer announces.
    pub(crate) fn new(peer: u8, route: &Route) -> Entry
        requires { peer < most_peers }
        ensures key { result.key ≡ key_of peer (number (meant route.now.prefix)) }
        ensures route { result.route ≡ route.now }
    {
        Entry {
            key: key_of(peer, &route.prefix),
            route: *route,
        }
    }
}

impl Table {
    /// The place of what the peer announced of the prefix, or where it would stand.
    pub(crate) fn find(&self, peer: u8, prefix: &Prefix) -> Result<usize, usize>
        ensures { MatchResult result (FoundLaws self.now.entries.items peer (number (meant prefix.now))) (AbsentLaws self.now.entries.items peer (number (meant prefix.now))) }
    {
        let key = key_of(peer, prefix);
        self.entries.binary_search_by_key(&key, |e| e.key)
    }

    /// The place of the first key that is not below `key`.
    fn place_of(&self, key: u64) -> usize
        ensures { Placed self.now.entries.items key result }
    {
        self.entries.partition_point(|e| e.key < key)
    }

    /// The entry of the lowest key from `from` on and below `until`.
    #[tactic(auto, using(crate::proofs::Places::none_left, crate::proofs::Places::none_below, crate::proofs::Places::first_below))]
    pub(crate) fn first_between(&self, from: u64, until: u64) -> Option<&Entry>
        ensures { MatchOption result (NoneBetween self.now.entries.items from until) (λ e. FirstBetween self.now.entries.items from until e.now) }
    {
        self.entries
            .get(self.place_of(from))
            .filter(|e| e.key < until)
    }
}
