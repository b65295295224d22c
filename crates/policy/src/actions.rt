//! What a clause does.
ghost use Rattle.std.specs.Prelude.{◌≡◌};
ghost use Rattle.policy.specs.Meant.{action_of, step_of};
ghost use Rattle.policy.specs.Policy.{act};
ghost use Rattle.route.specs.Meant.{route_of};

use crate::{Action, Verdict};
use route::Route;

impl Action {
    /// Does to the route what the action says. None: the route goes on to the next clause. One for which something does not fit is rejected.
    pub fn act(self, route: &mut Route) -> Option<Verdict>
        ensures { step_of result (route_of route.new) ≡ act (action_of self) (route_of route.old) }
    {
        match self {
            Action::Accept => return Some(Verdict::Accepted),
            Action::Reject => return Some(Verdict::Rejected),
            Action::SetLocalPref(local_pref) => route.metrics.local_pref = local_pref,
            Action::SetMed(med) => route.metrics.med = med,
            Action::AddCommunity(community) => {
                if route.communities.add(community).is_err() {
                    return Some(Verdict::Rejected);
                }
            }
            Action::RemoveCommunity(community) => route.communities.remove(community),
            Action::Prepend { asn, times } => {
                if route.path.prepend(asn, times).is_err() {
                    return Some(Verdict::Rejected);
                }
            }
        }
        None
    }
}
