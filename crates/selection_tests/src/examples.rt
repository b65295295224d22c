//! Values that the tests are made of.
use example_words::{eight, plain_route, there};
use route::{Metrics, Route};
use std::test::Fail;

/// The route server's own network.
pub const OWN: u32 = 5;

/// A route of 10.0.0.0/8 with no communities.
pub fn route(path: &[u32], local_pref: u32, med: u32) -> Result<Route, Fail> {
    there(plain_route(eight(), path, Metrics { local_pref, med }))
}
