//! What is exported of the selected route.
ghost use Rattle.std.specs.Prelude.{◌≡◌};
ghost use Rattle.policy.specs.Meant.{policy_of};
ghost use Rattle.route.specs.Meant.{route_of};
ghost use Rattle.selection.specs.Intended.{exported_to, offered};
ghost use Rattle.selection.specs.Meant.{candidate_of};
ghost use Rattle.std.specs.Option.{option_map};

use crate::Candidate;
use policy::{Policy, Verdict};
use route::Route;

/// The selected route as it is offered to the export policies: with the own network in front, if there is room for it, and MED 0.
#[tactic(auto, unfolding(route::specs::Numbers::prepended))]
pub fn offer(own_asn: u32, best: Option<Candidate>) -> Option<Candidate>
    ensures { option_map candidate_of result ≡ offered own_asn (option_map candidate_of best) }
{
    let Candidate { peer, mut route } = best?;
    route.path.prepend(own_asn, 1).ok()?;
    route.metrics.med = 0;
    Some(Candidate { peer, route })
}

/// What the export policy of a peer makes of what is offered, unless it comes from that peer.
pub fn export(policy: &Policy<'_>, peer: u8, offer: &Option<Candidate>) -> Option<Route>
    ensures { option_map route_of result ≡ exported_to (policy_of policy.now) peer (option_map candidate_of offer.now) }
{
    let candidate = (*offer)?;
    if candidate.peer == peer {
        return None;
    }
    let mut route = candidate.route;
    let Verdict::Accepted = policy.evaluate(&mut route) else {
        return None;
    };
    route.metrics.local_pref = 0;
    Some(route)
}
