//! What is imported of a route with local preference 7 and MED 9.
use crate::examples::{OWN, route};
use example_words::{always, there};
use policy::{Action, Clause, Policy};
use route::Route;
use selection::import;
use std::process::Abort;
use std::test::Fail;

fn imported(path: &[u32], clauses: &[Clause]) -> Result<Option<Route>, Fail> {
    let policy = Policy {
        clauses,
        lists: &[],
    };
    Ok(import(OWN, &policy, &route(path, 7, 9)?))
}

/// The local preference of what a policy imports that does this first, and then accepts.
fn preference(rt: &impl Abort, first: Action) -> Result<u32, Fail> {
    let route = there(imported(&[7, 11], &[always(first), always(Action::Accept)])?)?;
    assert_eq!(rt; route.path.asns(), [7, 11].as_slice());
    assert_eq!(rt; route.metrics.med, 9);
    Ok(route.metrics.local_pref)
}

#[test]
fn local_preference(rt: HostRuntime) -> Result<(), Fail> {
    assert_eq!(rt; preference(&rt, Action::SetMed(9))?, 100);
    assert_eq!(rt; preference(&rt, Action::SetLocalPref(0))?, 0);
    assert_eq!(rt;
        preference(&rt, Action::SetLocalPref(4_294_967_295))?,
        4_294_967_295
    );
    Ok(())
}

#[test]
fn rejected(rt: HostRuntime) -> Result<(), Fail> {
    assert!(rt; imported(&[7], &[])?.is_none());
    assert!(rt; imported(&[7], &[always(Action::Reject)])?.is_none());
    Ok(())
}

fn is_accepted(path: &[u32]) -> Result<bool, Fail> {
    Ok(imported(path, &[always(Action::Accept)])?.is_some())
}

#[test]
fn own_network_on_the_path(rt: HostRuntime) -> Result<(), Fail> {
    assert!(rt; is_accepted(&[7, 9, 11])?);
    assert!(rt; !is_accepted(&[OWN])?);
    assert!(rt; !is_accepted(&[OWN, 9, 11])?);
    assert!(rt; !is_accepted(&[7, OWN, 11])?);
    assert!(rt; !is_accepted(&[7, 9, OWN])?);
    let mut most = [7; 32];
    assert!(rt; is_accepted(&most)?);
    most[31] = OWN;
    assert!(rt; !is_accepted(&most)?);
    Ok(())
}

fn is_imported_behind(asn: u32, times: u8) -> Result<bool, Fail> {
    let clauses = [
        always(Action::Prepend { asn, times }),
        always(Action::Accept),
    ];
    Ok(imported(&[7, 9], &clauses)?.is_some())
}

/// The own network is looked for on the path that the policy made.
#[test]
fn own_network_prepended(rt: HostRuntime) -> Result<(), Fail> {
    assert!(rt; is_imported_behind(6, 8)?);
    assert!(rt; is_imported_behind(OWN, 0)?);
    assert!(rt; !is_imported_behind(OWN, 1)?);
    assert!(rt; !is_imported_behind(OWN, 8)?);
    Ok(())
}
