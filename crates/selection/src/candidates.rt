//! Which of two candidates is better.
ghost use Rattle.std.specs.Prelude.{◌≡◌, Some};
ghost use Rattle.std.proofs.Common.{rules};
ghost use Rattle.std.specs.Cmp.{partial_order_from_own_ties};
ghost use Rattle.std.specs.Cmp.Rules.{comparing};
ghost use Rattle.std.specs.Ordering.{as_partial_cmp, flip_args, nat_cmp, on, then_cmp};
ghost use Rattle.selection.specs.Intended.{or_better, outranks, rank};
ghost use Rattle.selection.specs.Meant.{candidate_of, rank_of};
ghost use Rattle.std.specs.Option.{option_map};
ghost use Rattle.route.specs.Meant.{route_of};

use crate::{Candidate, Rank};
use std::cmp::Ordering;

/// The larger local preference; else the shorter path; else the smaller MED; else the lower peer.
impl Ord for Rank {
    ghost cmp = { then_cmp (on (λ r. r.local_pref) nat_cmp) (then_cmp (flip_args (on (λ r. r.path_len) nat_cmp)) (then_cmp (flip_args (on (λ r. r.med) nat_cmp)) (flip_args (on (λ r. r.peer) nat_cmp)))) };

    ghost total = { Prim.search (comparing, rules) depth 9 };

    ghost matches_partial_cmp = { Prim.search (comparing, rules) depth 9 };

    ghost matches_eq = { Prim.search (comparing, rules) depth 9 };

    fn cmp(&self, other: &Rank) -> Ordering {
        self.local_pref
            .cmp(&other.local_pref)
            .then(other.path_len.cmp(&self.path_len))
            .then(other.med.cmp(&self.med))
            .then(other.peer.cmp(&self.peer))
    }
}

impl PartialOrd for Rank {
    ghost partial_cmp = { as_partial_cmp (then_cmp (on (λ r. r.local_pref) nat_cmp) (then_cmp (flip_args (on (λ r. r.path_len) nat_cmp)) (then_cmp (flip_args (on (λ r. r.med) nat_cmp)) (flip_args (on (λ r. r.peer) nat_cmp))))) };

    ghost laws = { partial_order_from_own_ties (Prim.search (comparing, rules) depth 9) (Prim.search (comparing, rules) depth 9) };

    fn partial_cmp(&self, other: &Rank) -> Option<Ordering> {
        Some(self.cmp(other))
    }
}

impl Rank {
    pub fn outranks(self, other: Rank) -> bool
        ensures { result ≡ outranks (rank_of self) (rank_of other) }
    {
        self > other
    }
}

impl Candidate {
    pub fn rank(&self) -> Rank
        ensures { rank_of result ≡ rank (candidate_of self.now) }
    {
        Rank {
            local_pref: self.route.metrics.local_pref,
            path_len: self.route.path.len(),
            med: self.route.metrics.med,
            peer: self.peer,
        }
    }
}

/// The better of a candidate and the best so far.
pub fn better_of(best: Option<Candidate>, candidate: Candidate) -> Option<Candidate>
    ensures { option_map candidate_of result ≡ or_better candidate.peer (Some (route_of candidate.route)) (option_map candidate_of best) }
{
    match best {
        None => Some(candidate),
        Some(best) => {
            if candidate.rank().outranks(best.rank()) {
                Some(candidate)
            } else {
                Some(best)
            }
        }
    }
}
