//! What a clause asks of a route.
ghost use Rattle.std.specs.Prelude.{◌≡◌, ◌<◌, [], ◌∷◌, ◌++◌, map, length, MatchResult};
ghost use Rattle.policy.specs.Meant.{condition_of, part_of, parts_of, test_of};
ghost use Rattle.policy.specs.Policy.{fits, holds, part_holds};
ghost use Rattle.route.specs.Meant.{route_of};
ghost use Rattle.std.specs.List.{list_all};

use crate::{Condition, Part, PrefixList, Test};
use route::{Route, is_among};
use rows::{Full, Row};

impl Test {
    /// Whether the route is as the test asks. A list that is not there is empty.
    pub fn fits(&self, lists: &[PrefixList], route: &Route) -> bool
        ensures { result ≡ fits (test_of lists.now self.now) (route_of route.now) }
    {
        match *self {
            Test::Any => true,
            Test::PrefixIn { list } => lists
                .get(usize::from(list))
                .is_some_and(|list| list.has(&route.prefix)),
            Test::PrefixWithin { list } => lists
                .get(usize::from(list))
                .is_some_and(|list| list.covers(&route.prefix)),
            Test::Passes { asn } => is_among(route.path.asns(), asn),
            Test::HasCommunity { community } => is_among(route.communities.as_slice(), community),
            Test::LongerThan { asns } => route.path.len() > asns as usize,
        }
    }
}

impl Part {
    pub fn holds(&self, lists: &[PrefixList], route: &Route) -> bool
        ensures { result ≡ part_holds (part_of lists.now self.now) (route_of route.now) }
    {
        self.test.fits(lists, route) != self.negated
    }
}

impl Condition {
    /// The condition with no parts, which always holds.
    pub fn new() -> Condition
        ensures { parts_of result ≡ [] }
    {
        Condition {
            parts: Row::new(Part {
                negated: false,
                test: Test::Any,
            }),
        }
    }

    /// One part more; where there are 16, all is left as it is.
    pub fn push(&mut self, part: Part) -> Result<(), Full>
        ensures { MatchResult result (λ _. (length (parts_of self.old) < 16) × (parts_of self.new ≡ parts_of self.old ++ (part ∷ []))) (λ _. (length (parts_of self.old) ≡ 16) × (parts_of self.new ≡ parts_of self.old)) }
    {
        self.parts.push(part)
    }

    /// Whether all parts hold; the first that does not ends it.
    pub fn holds(&self, lists: &[PrefixList], route: &Route) -> bool
        ensures { result ≡ holds (condition_of lists.now self.now) (route_of route.now) }
    {
        all_hold(self.as_slice(), lists, route)
    }

    /// The parts of the condition.
    pub fn as_slice(&self) -> &[Part]
        ensures { result.now ≡ parts_of self.now }
    {
        self.parts.as_slice()
    }
}

fn all_hold(parts: &[Part], lists: &[PrefixList], route: &Route) -> bool
    ensures { result ≡ list_all (λ p. part_holds (part_of lists.now p) (route_of route.now)) parts.now }
{
    parts.iter().all(|part| part.holds(lists, route))
}
