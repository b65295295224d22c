//! What is exported of a selected route that comes from peer 1, with local preference 200 and MED 4,294,967,295.
use crate::examples::{OWN, route};
use example_words::{always, there, when};
use policy::{Action, Clause, Policy, Test};
use route::Route;
use selection::{Candidate, export, offer};
use std::test::Fail;

fn offered(path: &[u32]) -> Result<Option<Candidate>, Fail> {
    let route = route(path, 200, 4_294_967_295)?;
    Ok(offer(OWN, Some(Candidate { peer: 1, route })))
}

fn exported(path: &[u32], peer: u8, clauses: &[Clause]) -> Result<Option<Route>, Fail> {
    let policy = Policy {
        clauses,
        lists: &[],
    };
    Ok(export(&policy, peer, &offered(path)?))
}

#[test]
fn nothing_to_offer(rt: HostRuntime) {
    assert!(rt; offer(OWN, None).is_none());
    let policy = Policy {
        clauses: &[always(Action::Accept)],
        lists: &[],
    };
    assert!(rt; export(&policy, 0, &None).is_none());
}

/// The export policies see the own network in front, MED 0 and the local preference that it was selected by.
#[test]
fn offers(rt: HostRuntime) -> Result<(), Fail> {
    let offer = there(offered(&[7, 9])?)?;
    assert_eq!(rt; offer.peer, 1);
    assert_eq!(rt; offer.route.path.asns(), [OWN, 7, 9].as_slice());
    assert_eq!(rt; offer.route.metrics.local_pref, 200);
    assert_eq!(rt; offer.route.metrics.med, 0);
    Ok(())
}

#[test]
fn path_of_31_and_of_32(rt: HostRuntime) -> Result<(), Fail> {
    let offer = there(offered(&[7; 31])?)?;
    assert_eq!(rt; offer.route.path.len(), 32);
    assert_eq!(rt; &offer.route.path.asns()[0..1], [OWN].as_slice());
    assert!(rt; offered(&[7; 32])?.is_none());
    assert!(rt; exported(&[7; 31], 0, &[always(Action::Accept)])?.is_some());
    assert!(rt; exported(&[7; 32], 0, &[always(Action::Accept)])?.is_none());
    let longer = always(Action::Prepend { asn: 8, times: 1 });
    assert!(rt; exported(&[7; 31], 0, &[longer, always(Action::Accept)])?.is_none());
    Ok(())
}

/// Nothing goes back to the peer from which it comes.
#[test]
fn to_each_peer(rt: HostRuntime) -> Result<(), Fail> {
    assert!(rt; exported(&[7], 0, &[always(Action::Accept)])?.is_some());
    assert!(rt; exported(&[7], 1, &[always(Action::Accept)])?.is_none());
    assert!(rt; exported(&[7], 2, &[always(Action::Accept)])?.is_some());
    assert!(rt; exported(&[7], 0, &[])?.is_none());
    assert!(rt; exported(&[7], 0, &[always(Action::Reject)])?.is_none());
    Ok(())
}

/// An export policy that asks for the own network finds it in front.
#[test]
fn own_network_is_asked_for(rt: HostRuntime) -> Result<(), Fail> {
    let own = Test::Passes { asn: OWN };
    assert!(rt; exported(&[7], 0, &[when(false, own, Action::Accept)])?.is_some());
    assert!(rt; exported(&[7], 0, &[when(true, own, Action::Accept)])?.is_none());
    let longer = Test::LongerThan { asns: 1 };
    assert!(rt; exported(&[7], 0, &[when(false, longer, Action::Accept)])?.is_some());
    Ok(())
}

/// What it sets is sent, but for the local preference.
#[test]
fn set_by_the_export_policy(rt: HostRuntime) -> Result<(), Fail> {
    let clauses = [
        always(Action::SetLocalPref(300)),
        always(Action::SetMed(4)),
        always(Action::Prepend { asn: 8, times: 2 }),
        always(Action::AddCommunity(3)),
        always(Action::Accept),
    ];
    let route = there(exported(&[7, 9], 0, &clauses)?)?;
    assert_eq!(rt; route.path.asns(), [8, 8, OWN, 7, 9].as_slice());
    assert_eq!(rt; route.metrics.local_pref, 0);
    assert_eq!(rt; route.metrics.med, 4);
    assert_eq!(rt; route.communities.as_slice(), [3].as_slice());
    Ok(())
}

#[test]
fn not_set_by_the_export_policy(rt: HostRuntime) -> Result<(), Fail> {
    let route = there(exported(&[7, 9], 0, &[always(Action::Accept)])?)?;
    assert_eq!(rt; route.path.asns(), [OWN, 7, 9].as_slice());
    assert_eq!(rt; route.metrics.local_pref, 0);
    assert_eq!(rt; route.metrics.med, 0);
    assert_eq!(rt; route.communities.as_slice(), [0u32; 0].as_slice());
    Ok(())
}
