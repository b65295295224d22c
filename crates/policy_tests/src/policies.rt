//! What policies make of one route: 10.1.0.0/16 by 7, 9 and 11, with local preference 100, MED 7 and the communities 3 and 5.
use crate::examples::{IS, NOT, condition, list, prefix, route};
use policy::{Action, Clause, Policy, PrefixList, Test, Verdict};
use std::process::Abort;
use std::test::*;

/// A policy, by the parts of each clause's condition and its action, whether it accepts the route, and what it leaves of it.
#[derive(Clone, Copy)]
struct Case<'a> {
    clauses: &'a [(&'a [(bool, Test)], Action)],
    accepted: bool,
    left: Left<'a>,
}

#[derive(Clone, Copy)]
struct Left<'a> {
    path: &'a [u32],
    local_pref: u32,
    med: u32,
    communities: &'a [u32],
}

const GIVEN: Left<'static> = Left {
    path: &[7, 9, 11],
    local_pref: 100,
    med: 7,
    communities: &[3, 5],
};

const ORDER: [Case<'static>; 9] = [
    Case {
        clauses: &[],
        accepted: false,
        left: GIVEN,
    },
    Case {
        clauses: &[(&[], Action::Accept)],
        accepted: true,
        left: GIVEN,
    },
    Case {
        clauses: &[(&[], Action::Reject), (&[], Action::Accept)],
        accepted: false,
        left: GIVEN,
    },
    Case {
        clauses: &[(&[], Action::Accept), (&[], Action::Reject)],
        accepted: true,
        left: GIVEN,
    },
    // What stands behind the clause that accepts is not looked at.
    Case {
        clauses: &[(&[], Action::Accept), (&[], Action::SetLocalPref(200))],
        accepted: true,
        left: GIVEN,
    },
    // At the end the route is rejected.
    Case {
        clauses: &[(&[], Action::SetLocalPref(200))],
        accepted: false,
        left: Left {
            local_pref: 200,
            ..GIVEN
        },
    },
    // Of two that set the same the later counts.
    Case {
        clauses: &[
            (&[], Action::SetLocalPref(200)),
            (&[], Action::SetLocalPref(50)),
            (&[], Action::Accept),
        ],
        accepted: true,
        left: Left {
            local_pref: 50,
            ..GIVEN
        },
    },
    // A clause asks of the route that the clauses before it made.
    Case {
        clauses: &[
            (&[(IS, Test::Passes { asn: 4 })], Action::Reject),
            (&[], Action::Prepend { asn: 4, times: 2 }),
            (&[(IS, Test::LongerThan { asns: 4 })], Action::Accept),
        ],
        accepted: true,
        left: Left {
            path: &[4, 4, 7, 9, 11],
            ..GIVEN
        },
    },
    Case {
        clauses: &[
            (&[], Action::RemoveCommunity(3)),
            (&[(IS, Test::HasCommunity { community: 3 })], Action::Accept),
        ],
        accepted: false,
        left: Left {
            communities: &[5],
            ..GIVEN
        },
    },
];

const CONDITIONS: [Case<'static>; 17] = [
    Case {
        clauses: &[(&[(IS, Test::Any)], Action::Accept)],
        accepted: true,
        left: GIVEN,
    },
    Case {
        clauses: &[(&[(NOT, Test::Any)], Action::Accept)],
        accepted: false,
        left: GIVEN,
    },
    Case {
        clauses: &[(&[(IS, Test::Passes { asn: 9 })], Action::Accept)],
        accepted: true,
        left: GIVEN,
    },
    Case {
        clauses: &[(&[(IS, Test::Passes { asn: 8 })], Action::Accept)],
        accepted: false,
        left: GIVEN,
    },
    Case {
        clauses: &[(&[(NOT, Test::Passes { asn: 8 })], Action::Accept)],
        accepted: true,
        left: GIVEN,
    },
    // The first list has 10.0.0.0/8, in which the prefix is but which it is not.
    Case {
        clauses: &[(&[(IS, Test::PrefixIn { list: 0 })], Action::Accept)],
        accepted: false,
        left: GIVEN,
    },
    Case {
        clauses: &[(&[(IS, Test::PrefixWithin { list: 0 })], Action::Accept)],
        accepted: true,
        left: GIVEN,
    },
    // The second has the prefix itself.
    Case {
        clauses: &[(&[(IS, Test::PrefixIn { list: 1 })], Action::Accept)],
        accepted: true,
        left: GIVEN,
    },
    Case {
        clauses: &[(&[(IS, Test::PrefixWithin { list: 1 })], Action::Accept)],
        accepted: true,
        left: GIVEN,
    },
    Case {
        clauses: &[(&[(NOT, Test::PrefixIn { list: 1 })], Action::Accept)],
        accepted: false,
        left: GIVEN,
    },
    // The third is empty, and a fourth is not there.
    Case {
        clauses: &[(&[(IS, Test::PrefixWithin { list: 2 })], Action::Accept)],
        accepted: false,
        left: GIVEN,
    },
    Case {
        clauses: &[(
            &[
                (NOT, Test::PrefixWithin { list: 2 }),
                (NOT, Test::PrefixIn { list: 3 }),
            ],
            Action::Accept,
        )],
        accepted: true,
        left: GIVEN,
    },
    Case {
        clauses: &[(
            &[
                (IS, Test::LongerThan { asns: 2 }),
                (NOT, Test::LongerThan { asns: 3 }),
            ],
            Action::Accept,
        )],
        accepted: true,
        left: GIVEN,
    },
    Case {
        clauses: &[(&[(IS, Test::LongerThan { asns: 3 })], Action::Accept)],
        accepted: false,
        left: GIVEN,
    },
    // All parts must hold.
    Case {
        clauses: &[(
            &[
                (IS, Test::HasCommunity { community: 3 }),
                (IS, Test::HasCommunity { community: 5 }),
                (IS, Test::Passes { asn: 11 }),
            ],
            Action::Accept,
        )],
        accepted: true,
        left: GIVEN,
    },
    Case {
        clauses: &[(
            &[
                (IS, Test::HasCommunity { community: 3 }),
                (NOT, Test::HasCommunity { community: 5 }),
            ],
            Action::Accept,
        )],
        accepted: false,
        left: GIVEN,
    },
    Case {
        clauses: &[(
            &[
                (IS, Test::HasCommunity { community: 4 }),
                (IS, Test::Passes { asn: 7 }),
            ],
            Action::Accept,
        )],
        accepted: false,
        left: GIVEN,
    },
];

const ACTIONS: [Case<'static>; 14] = [
    Case {
        clauses: &[
            (&[(IS, Test::Passes { asn: 9 })], Action::SetLocalPref(0)),
            (&[], Action::Accept),
        ],
        accepted: true,
        left: Left {
            local_pref: 0,
            ..GIVEN
        },
    },
    Case {
        clauses: &[
            (&[(NOT, Test::Passes { asn: 9 })], Action::SetLocalPref(0)),
            (&[], Action::Accept),
        ],
        accepted: true,
        left: GIVEN,
    },
    Case {
        clauses: &[
            (&[], Action::SetLocalPref(4_294_967_295)),
            (&[], Action::Accept),
        ],
        accepted: true,
        left: Left {
            local_pref: 4_294_967_295,
            ..GIVEN
        },
    },
    Case {
        clauses: &[(&[], Action::SetMed(0)), (&[], Action::Accept)],
        accepted: true,
        left: Left { med: 0, ..GIVEN },
    },
    Case {
        clauses: &[(&[], Action::SetMed(4_294_967_295)), (&[], Action::Accept)],
        accepted: true,
        left: Left {
            med: 4_294_967_295,
            ..GIVEN
        },
    },
    Case {
        clauses: &[(&[], Action::AddCommunity(4)), (&[], Action::Accept)],
        accepted: true,
        left: Left {
            communities: &[3, 4, 5],
            ..GIVEN
        },
    },
    // One that is there is not added again.
    Case {
        clauses: &[(&[], Action::AddCommunity(3)), (&[], Action::Accept)],
        accepted: true,
        left: GIVEN,
    },
    Case {
        clauses: &[
            (&[], Action::AddCommunity(4_294_967_295)),
            (&[], Action::AddCommunity(0)),
            (&[], Action::Accept),
        ],
        accepted: true,
        left: Left {
            communities: &[0, 3, 5, 4_294_967_295],
            ..GIVEN
        },
    },
    Case {
        clauses: &[(&[], Action::RemoveCommunity(3)), (&[], Action::Accept)],
        accepted: true,
        left: Left {
            communities: &[5],
            ..GIVEN
        },
    },
    Case {
        clauses: &[(&[], Action::RemoveCommunity(4)), (&[], Action::Accept)],
        accepted: true,
        left: GIVEN,
    },
    Case {
        clauses: &[
            (&[], Action::Prepend { asn: 4, times: 0 }),
            (&[], Action::Accept),
        ],
        accepted: true,
        left: GIVEN,
    },
    Case {
        clauses: &[
            (&[], Action::Prepend { asn: 4, times: 3 }),
            (&[], Action::Prepend { asn: 9, times: 1 }),
            (&[], Action::Accept),
        ],
        accepted: true,
        left: Left {
            path: &[9, 4, 4, 4, 7, 9, 11],
            ..GIVEN
        },
    },
    Case {
        clauses: &[
            (&[], Action::Prepend { asn: 4, times: 8 }),
            (&[], Action::Accept),
        ],
        accepted: true,
        left: Left {
            path: &[4, 4, 4, 4, 4, 4, 4, 4, 7, 9, 11],
            ..GIVEN
        },
    },
    // A path of 33 networks rejects the route.
    Case {
        clauses: &[
            (&[], Action::SetMed(1)),
            (&[], Action::Prepend { asn: 4, times: 30 }),
            (&[], Action::Accept),
        ],
        accepted: false,
        left: Left { med: 1, ..GIVEN },
    },
];

#[test]
fn order_of_clauses(rt: HostRuntime) -> Result<(), Fail> {
    run(&rt, &ORDER)
}

#[test]
fn conditions_of_clauses(rt: HostRuntime) -> Result<(), Fail> {
    run(&rt, &CONDITIONS)
}

#[test]
fn actions_of_clauses(rt: HostRuntime) -> Result<(), Fail> {
    run(&rt, &ACTIONS)
}

fn run(rt: &(impl Abort + AllocGlobal), cases: &[Case<'_>]) -> Result<(), Fail> {
    let near = prefix([10, 1, 0, 0], 16)?;
    let other = prefix([192, 168, 0, 0], 16)?;
    let lists = [
        list(rt, &[prefix([10, 0, 0, 0], 8)?, other])?,
        list(rt, &[other, near])?,
        list(rt, &[])?,
    ];
    for (i, case) in cases.iter().enumerate() {
        evaluates(rt, &lists, i, case)?;
    }
    Ok(())
}

fn evaluates(
    rt: &(impl Abort + AllocGlobal),
    lists: &[PrefixList],
    i: usize,
    case: &Case<'_>,
) -> Result<(), Fail> {
    let mut clauses = Vec::new(rt.alloc());
    for (parts, action) in case.clauses {
        clauses.push(Clause {
            condition: condition(rt, parts)?,
            action: *action,
        })?;
    }
    let policy = Policy {
        clauses: clauses.as_slice(),
        lists,
    };
    let mut route = route(prefix([10, 1, 0, 0], 16)?, GIVEN.path, GIVEN.communities)?;
    let verdict = policy.evaluate(&mut route);
    assert_eq!(rt;
        matches!(verdict, Verdict::Accepted),
        case.accepted,
        "case {i}"
    );
    assert_eq!(rt; route.path.asns(), case.left.path, "case {i}");
    assert_eq!(rt; route.metrics.local_pref, case.left.local_pref, "case {i}");
    assert_eq!(rt; route.metrics.med, case.left.med, "case {i}");
    assert_eq!(rt;
        route.communities.as_slice(),
        case.left.communities,
        "case {i}"
    );
    Ok(())
}
