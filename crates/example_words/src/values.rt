//! Values that examples are made of.
ghost use Rattle.std.specs.Prelude.{◌≡◌, false, ◌&&◌, [], ◌∷◌, length, if◌then◌else◌, Some, None, MatchOption, MatchResult, nat_le, nat_lt};
ghost use Rattle.policy.specs.Meant.{parts_of};
ghost use Rattle.prefix.specs.Meant.{meant};
ghost use Rattle.prefix.specs.Prefix.{is_prefix};
ghost use Rattle.route.specs.Meant.{route_of};

use policy::{Action, Clause, Condition, Part, Test};
use prefix::Prefix;
use route::{Communities, Metrics, Path, Route};
use std::test::Fail;

/// Local preference, length of the path, MED and peer of candidates, each better than all below it.
pub const BEST_TO_WORST: [(u32, usize, u32, u8); 13] = [
    (4_294_967_295, 32, 4_294_967_295, 255),
    (101, 32, 4_294_967_295, 9),
    (100, 1, 4_294_967_295, 8),
    (100, 2, 0, 7),
    (100, 2, 1, 6),
    (100, 2, 4_294_967_294, 5),
    (100, 2, 4_294_967_295, 2),
    (100, 2, 4_294_967_295, 3),
    (100, 31, 4_294_967_295, 4),
    (100, 32, 0, 1),
    (1, 32, 0, 254),
    (0, 1, 0, 0),
    (0, 1, 0, 253),
];

/// What must be there for a test to go on.
pub fn there<T>(value: Option<T>) -> Result<T, Fail>
    ensures { MatchResult result (λ v. value ≡ Some v) (λ _. value ≡ None) }
{
    value.ok_or_else(|| Fail::new("nothing is there"))
}

/// The prefix of that address and length; where there is none, 0.0.0.0/0.
pub fn prefix_or_whole(address: u32, length: u8) -> Prefix
    ensures { meant result ≡ (if is_prefix address length then (record { address = address; length = length }) else (record { address = 0; length = 0 })) }
{
    match Prefix::new(address, length) {
        Some(prefix) => prefix,
        None => Prefix::whole(),
    }
}

/// 10.0.0.0/8
pub fn eight() -> Prefix
    ensures { meant result ≡ record { address = 167772160; length = 8 } }
{
    prefix_or_whole(167_772_160, 8)
}

/// The route to a prefix by a path of 1 to 32 networks, with no communities.
pub fn plain_route(prefix: Prefix, asns: &[u32], metrics: Metrics) -> Option<Route>
    ensures { MatchOption result ((nat_lt 0 (length asns.now) && nat_le (length asns.now) 32) ≡ false) (λ x. route_of x ≡ record { prefix = meant prefix; path = asns.now; local_pref = metrics.local_pref; med = metrics.med; communities = [] }) }
{
    let path = Path::new(asns)?;
    Some(Route {
        prefix,
        path,
        metrics,
        communities: Communities::none(),
    })
}

/// A clause that asks nothing.
pub fn always(action: Action) -> Clause
    ensures { (parts_of result.condition ≡ []) × (result.action ≡ action) }
{
    Clause {
        condition: Condition::new(),
        action,
    }
}

/// A clause of one part.
pub fn when(negated: bool, test: Test, action: Action) -> Clause
    ensures { (parts_of result.condition ≡ (record { negated = negated; test = test }) ∷ []) × (result.action ≡ action) }
{
    let mut condition = Condition::new();
    let _ = condition.push(Part { negated, test });
    Clause { condition, action }
}
