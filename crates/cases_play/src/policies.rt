//! The policies of the cases.
ghost use Rattle.std.specs.Prelude.{◌≡◌, if◌then◌else◌, nat_eq};
ghost use Rattle.policy.specs.Meant.{policy_of};

use example_words::{prefix_or_whole, when};
use policy::{Action, Clause, Policy, PrefixList, Test};
use selection::PolicySource;

/// The policies of one peer, and those that all others have.
#[derive(Clone, Copy)]
pub struct Policies<'a> {
    peer: u8,
    import: Policy<'a>,
    export: Policy<'a>,
    others: Policy<'a>,
}

impl PolicySource for Policies<'_> {
    ghost imports = { λ p i. (if nat_eq i p.peer then policy_of p.import else policy_of p.others) };

    ghost exports = { λ p i. (if nat_eq i p.peer then policy_of p.export else policy_of p.others) };

    fn import_policy(&self, peer: u8) -> Policy<'_> {
        if peer == self.peer {
            self.import
        } else {
            self.others
        }
    }

    fn export_policy(&self, peer: u8) -> Policy<'_> {
        if peer == self.peer {
            self.export
        } else {
            self.others
        }
    }
}

impl<'a> Policies<'a> {
    /// All have the same.
    fn of_all(policy: Policy<'a>) -> Policies<'a> {
        Policies {
            peer: 0,
            import: policy,
            export: policy,
            others: policy,
        }
    }
}

/// What may come into force.
#[derive(Clone, Copy)]
pub enum Plan {
    /// Nobody has a policy.
    Nobody,
    /// Every policy accepts everything.
    Everybody,
    /// The import policy of 1 prefers what passes 9.
    Preferring,
    /// The export policy of 3 rejects what has community 7.
    BarringCommunity,
    /// The export policy of 3 rejects the nine prefixes.
    BarringNine,
}

/// The clauses that the policies are made of.
#[derive(Drop)]
pub struct Texts {
    lists: [PrefixList; 1],
    accept: [Clause; 1],
    prefer: [Clause; 2],
    bar_community: [Clause; 2],
    bar_nine: [Clause; 2],
}

impl Texts {
    pub fn new() -> Texts {
        let accept = when(false, Test::Any, Action::Accept);
        Texts {
            lists: [nine()],
            accept: [accept],
            prefer: [
                when(false, Test::Passes { asn: 9 }, Action::SetLocalPref(200)),
                accept,
            ],
            bar_community: [
                when(false, Test::HasCommunity { community: 7 }, Action::Reject),
                accept,
            ],
            bar_nine: [
                when(false, Test::PrefixIn { list: 0 }, Action::Reject),
                accept,
            ],
        }
    }

    /// The policies that a plan puts in force.
    pub fn policies(&self, plan: Plan) -> Policies<'_> {
        let accept = self.policy(&self.accept);
        match plan {
            Plan::Nobody => Policies::of_all(self.policy(&[])),
            Plan::Everybody => Policies::of_all(accept),
            Plan::Preferring => Policies {
                peer: 1,
                import: self.policy(&self.prefer),
                ..Policies::of_all(accept)
            },
            Plan::BarringCommunity => Policies {
                peer: 3,
                export: self.policy(&self.bar_community),
                ..Policies::of_all(accept)
            },
            Plan::BarringNine => Policies {
                peer: 3,
                export: self.policy(&self.bar_nine),
                ..Policies::of_all(accept)
            },
        }
    }

    /// These clauses, with the list of the nine prefixes.
    fn policy<'a>(&'a self, clauses: &'a [Clause]) -> Policy<'a>
        ensures { (result.clauses.now ≡ clauses.now) × (result.lists.now ≡ self.now.lists) }
    {
        Policy {
            clauses,
            lists: &self.lists,
        }
    }
}

/// 10.1.0.0/16 to 10.9.0.0/16
pub fn nine() -> PrefixList {
    let mut list = PrefixList::new();
    for k in 1..10 {
        let _ = list.push(prefix_or_whole(167_772_160 + k * 65_536, 16));
    }
    list
}
