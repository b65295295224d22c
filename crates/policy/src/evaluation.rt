//! What a policy makes of a route.
ghost use Rattle.std.specs.Prelude.{◌≡◌};
ghost use Rattle.policy.specs.Meant.{policy_of, verdict_of};
ghost use Rattle.policy.specs.Policy.{verdict};
ghost use Rattle.route.specs.Meant.{route_of};

use crate::{Policy, Verdict};
use route::Route;

impl Policy<'_> {
    /// Clause by clause, until one accepts or rejects the route; at the end it is rejected. The route is left as the clauses made it.
    #[tactic(auto, using(crate::proofs::Recursions::through_end))]
    pub fn evaluate(&self, route: &mut Route) -> Verdict
        ensures { verdict_of result (route_of route.new) ≡ verdict (policy_of self.now) (route_of route.old) }
    {
        let lists = self.lists;
        'clauses: {
            for clause in self.clauses {
                if clause.condition.holds(lists, route) {
                    if let Some(verdict) = clause.action.act(route) {
                        break 'clauses verdict;
                    }
                }
            }
            Verdict::Rejected
        }
    }
}
