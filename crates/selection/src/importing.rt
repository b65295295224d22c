//! What is imported of an announced route.
ghost use Rattle.std.specs.Prelude.{◌≡◌};
ghost use Rattle.policy.specs.Meant.{policy_of};
ghost use Rattle.route.specs.Meant.{route_of};
ghost use Rattle.selection.specs.Intended.{imported_by};
ghost use Rattle.std.specs.Option.{option_map};

use policy::{Policy, Verdict};
use route::{Route, is_among};

/// What the policy makes of an announced route; never one that has the own network on its path.
pub fn import(own_asn: u32, policy: &Policy<'_>, announced: &Route) -> Option<Route>
    ensures { option_map route_of result ≡ imported_by own_asn (policy_of policy.now) (route_of announced.now) }
{
    let mut route = *announced;
    route.metrics.local_pref = 100;
    let Verdict::Accepted = policy.evaluate(&mut route) else {
        return None;
    };
    if is_among(route.path.asns(), own_asn) {
        None
    } else {
        Some(route)
    }
}
