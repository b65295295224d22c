//! Telling one peer of one prefix.
ghost use Rattle.model.specs.Chain.{Chain};
ghost use Rattle.model.specs.Updates.{tell_if};
ghost use Rattle.prefix.specs.Meant.{meant};
ghost use Rattle.prefix.specs.Prefix.{number};
ghost use Rattle.route.specs.Meant.{route_of};
ghost use Rattle.std.specs.Option.{option_map};
ghost use Rattle.telling.specs.Steps.{TellSteps};

use crate::Sink;
use prefix::Prefix;
use route::Route;

/// Tells the peer what it should hold of the prefix, if that isn't what it holds.
pub fn tell<S: Sink>(
    sink: &mut S,
    peer: u8,
    prefix: Prefix,
    old: &Option<Route>,
    new: &Option<Route>,
)
    ensures { Chain S.Sink.sends sink.old (tell_if peer (number (meant prefix)) (option_map route_of old.now) (option_map route_of new.now)) sink.new }
{
    tell_law(sink, peer, prefix, old, new);
    if new != old {
        sink.send(peer, prefix, new.as_ref());
    }
}

fn tell_law<S: Sink>(sink: &S, peer: u8, prefix: Prefix, old: &Option<Route>, new: &Option<Route>)
    ensures { TellSteps S.Sink.sends peer (number (meant prefix)) (option_map route_of old.now) (option_map route_of new.now) }
{}
