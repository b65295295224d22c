//! A route: a prefix, and what its sender says of the way there.
#![tactic(auto)]

ghost use Rattle.std.specs.Prelude.{◌≡◌, ◌<◌, ◌≤◌, true, take};
ghost use Rattle.route.specs.Numbers.{rising};

mod among;
mod as_paths;
mod community_rows;
mod laws;
mod sameness;

pub use among::is_among;
pub use laws::{formed_law, row_laws};
use prefix::Prefix;

/// An AS path of 1 to 32 networks, the nearest first. It stands at the end of the array, so that the room in front takes what is prepended.
#[derive(Clone, Copy)]
pub struct Path {
    asns: [u32; 32],
    start: usize,
    ghost some: { start < 32 },
}

/// Up to 8 communities, in rising order, each once.
#[derive(Clone, Copy)]
pub struct Communities {
    values: [u32; 8],
    count: usize,
    ghost few: { count ≤ 8 },
    ghost ordered: { rising (take count values) ≡ true },
}

/// The numbers by which routes are compared: the larger local preference, the smaller MED is the better.
#[derive(Clone, Copy, Debug, PartialEq, Eq)]
pub struct Metrics {
    pub local_pref: u32,
    pub med: u32,
}

#[derive(Clone, Copy, PartialEq, Eq)]
pub struct Route {
    pub prefix: Prefix,
    pub path: Path,
    pub metrics: Metrics,
    pub communities: Communities,
}
