//! What actions do at the limits of a route.
use crate::examples::route;
use policy::{Action, Verdict};
use prefix::Prefix;
use std::process::Abort;
use std::test::*;

/// What becomes of a path by prepending 5 so many times; none where the route is rejected, with the path left as it is.
fn prepended(rt: &impl Abort, path: &[u32], times: u8) -> Result<Option<usize>, Fail> {
    let mut route = route(Prefix::whole(), path, &[])?;
    match (Action::Prepend { asn: 5, times }).act(&mut route) {
        None => {
            let front = [5; 8];
            let count = times as usize;
            assert!(rt; count <= 8 && count <= route.path.asns().len());
            assert_eq!(rt; &route.path.asns()[0..count], &front[0..count]);
            assert_eq!(rt; &route.path.asns()[count..], path);
            Ok(Some(route.path.len()))
        }
        Some(verdict) => {
            assert!(rt; matches!(verdict, Verdict::Rejected));
            assert_eq!(rt; route.path.asns(), path);
            Ok(None)
        }
    }
}

#[test]
fn prepends(rt: HostRuntime) -> Result<(), Fail> {
    assert_eq!(rt; prepended(&rt, &[7], 0)?, Some(1));
    assert_eq!(rt; prepended(&rt, &[7], 8)?, Some(9));
    assert_eq!(rt; prepended(&rt, &[7; 24], 8)?, Some(32));
    assert_eq!(rt; prepended(&rt, &[7; 25], 8)?, None);
    assert_eq!(rt; prepended(&rt, &[7; 31], 1)?, Some(32));
    assert_eq!(rt; prepended(&rt, &[7; 32], 1)?, None);
    assert_eq!(rt; prepended(&rt, &[7; 32], 0)?, Some(32));
    Ok(())
}

/// How many communities there are after adding one; none where the route is rejected, with those left that it had.
fn added(rt: &impl Abort, communities: &[u32], community: u32) -> Result<Option<usize>, Fail> {
    let mut route = route(Prefix::whole(), &[7], communities)?;
    match Action::AddCommunity(community).act(&mut route) {
        None => Ok(Some(route.communities.as_slice().len())),
        Some(verdict) => {
            assert!(rt; matches!(verdict, Verdict::Rejected));
            assert_eq!(rt; route.communities.as_slice(), communities);
            Ok(None)
        }
    }
}

#[test]
fn adds_communities(rt: HostRuntime) -> Result<(), Fail> {
    assert_eq!(rt; added(&rt, &[], 0)?, Some(1));
    assert_eq!(rt; added(&rt, &[1, 2, 3, 4, 5, 6, 7], 8)?, Some(8));
    assert_eq!(rt; added(&rt, &[1, 2, 3, 4, 5, 6, 7, 8], 8)?, Some(8));
    assert_eq!(rt; added(&rt, &[1, 2, 3, 4, 5, 6, 7, 8], 9)?, None);
    assert_eq!(rt; added(&rt, &[1, 2, 3, 4, 5, 6, 7, 8], 0)?, None);
    Ok(())
}
