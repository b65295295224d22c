//! What stands in the row: a route with its key.
ghost use Rattle.std.specs.Prelude.{◌≡◌, ◌/◌, ◌%◌, ◌<◌};
ghost use Rattle.prefix.specs.Meant.{meant};
ghost use Rattle.prefix.specs.Prefix.{number};
ghost use Rattle.rib.specs.Received.{most_peers};

use route::Route;

/// A route with its key: by the prefix's number and, at one prefix, by peer.
#[derive(Clone, Copy)]
pub struct Entry {
    pub key: u64,
    pub route: Route,
    ghost of_peer: { key % 256 < most_peers },
    ghost of_prefix: { key / 256 ≡ number (meant route.prefix) },
}
