//! The lists of a text, and the policies of a peer.
ghost use Rattle.std.specs.Prelude.{◌≡◌, ◌<◌, map, if◌then◌else◌, None, nat_lt, slice_index_or};
ghost use Rattle.policy_tables.specs.Meant.{content_of, named_of};
ghost use Rattle.policy_tables.specs.Texts.{place_of, policy_for};
ghost use Rattle.policy.specs.Meant.{policy_of, prefixes_of};

use crate::{Direction, Policies};
use policy::{Clause, Policy, PrefixList};

impl Policies {
    /// The lists, by their numbers.
    pub fn lists(&self) -> &[PrefixList]
        ensures { map prefixes_of result.now ≡ (content_of self.now).lists }
    {
        self.lists.as_slice()
    }

    /// The peer's policy of that direction; one that the text does not name has no clauses.
    #[tactic(auto, using(crate::proofs::Finding::meaning_of))]
    pub fn policy(&self, direction: Direction, peer: u8) -> Policy<'_>
        ensures { policy_of result ≡ policy_for (content_of self.now) direction peer }
    {
        Policy {
            clauses: self.clauses(direction, peer).unwrap_or(&[]),
            lists: self.lists.as_slice(),
        }
    }

    /// The clauses of the peer's policy of that direction, if the text names it.
    pub fn clauses(&self, direction: Direction, peer: u8) -> Option<&[Clause]>
        ensures { named_of result ≡ (if nat_lt peer 64 then slice_index_or (content_of self.now).policies (place_of direction peer) None else None) }
    {
        if peer >= 64 {
            return None;
        }
        self.clauses_at(direction.place_of(peer))
    }

    /// The clauses of the policy at the place, if the text names it.
    #[tactic(auto, using(crate::proofs::Finding::placing))]
    fn clauses_at(&self, place: usize) -> Option<&[Clause]>
        requires { place < 128 }
        ensures { named_of result ≡ slice_index_or (content_of self.now).policies place None }
    {
        let span = self.spans[place]?;
        let clauses = self.pool.as_slice();
        Some(&clauses[span.start..span.start + span.count])
    }
}
