//! Telling peers what is new for them.
#![tactic(auto)]

ghost use Rattle.model.specs.Updates.{Update};
ghost use Rattle.prefix.specs.Meant.{meant};
ghost use Rattle.prefix.specs.Prefix.{number};
ghost use Rattle.route.specs.Meant.{route_of};
ghost use Rattle.std.specs.Option.{option_map};

use prefix::Prefix;
use rib::Rib;
use route::Route;
use selection::{PolicySource, Terms};

mod changes;
mod of_prefix;
mod one;

pub use of_prefix::Offers;
pub use one::tell;

/// What takes updates, by what sending one does.
pub trait Sink {
    ghost sends: { Self → Update → Self → Type 0 };

    /// Tells a peer of a prefix this route, or that there is none.
    fn send(&mut self, peer: u8, prefix: Prefix, route: Option<&Route>)
        ensures { sends self.old (record { peer = peer; prefix = number (meant prefix); route = option_map (λ x. route_of x.now) route.entry }) self.new };
}

/// By what what is announced counted before, and by what it counts now, over one table.
#[derive(Drop)]
pub struct Change<'a, R: Rib, P: PolicySource> {
    pub own_asn: u32,
    pub peers: u8,
    pub rib: &'a R,
    pub before: Terms<'a, P>,
    pub after: Terms<'a, P>,
}
