//! Values that the tests are made of.
use example_words::there;
use policy::{Condition, Part, PrefixList, Test};
use prefix::Prefix;
use route::{Communities, Metrics, Path, Route};
use std::process::Abort;
use std::test::*;

/// The prefix a.b.c.d/length.
pub fn prefix(address: [u8; 4], length: u8) -> Result<Prefix, Fail> {
    there(Prefix::new(u32::from_be_bytes(address), length))
}

/// A route of that prefix, path and communities, with local preference 100 and MED 7.
pub fn route(prefix: Prefix, path: &[u32], communities: &[u32]) -> Result<Route, Fail> {
    Ok(Route {
        prefix,
        path: there(Path::new(path))?,
        metrics: Metrics {
            local_pref: 100,
            med: 7,
        },
        communities: there(Communities::of(communities))?,
    })
}

/// The list of these prefixes.
pub fn list(rt: &impl Abort, prefixes: &[Prefix]) -> Result<PrefixList, Fail> {
    let mut list = PrefixList::new();
    for prefix in prefixes {
        assert!(rt; list.push(*prefix).is_ok());
    }
    Ok(list)
}

/// Whether a part of a condition is negated.
pub const IS: bool = false;

pub const NOT: bool = true;

/// The condition that has these parts.
pub fn condition(rt: &impl Abort, parts: &[(bool, Test)]) -> Result<Condition, Fail> {
    let mut condition = Condition::new();
    for (negated, test) in parts {
        assert!(rt;
            condition
                .push(Part {
                    negated: *negated,
                    test: *test,
                })
                .is_ok()
        );
    }
    Ok(condition)
}

/// Whether the test fits the route: alone, as a part and as a condition, where the negated one says the contrary.
pub fn fits(
    rt: &impl Abort,
    test: Test,
    lists: &[PrefixList],
    route: &Route,
) -> Result<bool, Fail> {
    let fits = test.fits(lists, route);
    for negated in [false, true] {
        let part = Part { negated, test };
        assert_eq!(rt; part.holds(lists, route), fits != negated);
        assert_eq!(rt;
            condition(rt, &[(negated, test)])?.holds(lists, route),
            fits != negated
        );
    }
    Ok(fits)
}
