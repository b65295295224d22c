#![tactic(auto)]
// What is true of every message that is read or written.
ghost use Rattle.message_laws.specs.HasFault.{LowestFault};
ghost use Rattle.message_laws.specs.Names.{Names};
ghost use Rattle.message_laws.specs.RoundTrip.{Fit, RoundTrip, Sendable, Sizes};
ghost use Rattle.route.specs.Meant.{route_of};

use route::{Route, formed_law};

// Of the faults that a message has, the lowest is answered.
pub fn lowest_fault()
    ensures { LowestFault }
{}

// What is written is read back, without a fault.
pub fn round_trip()
    ensures { RoundTrip }
{}

// Every route that the code can hold can be sent.
pub fn sendable_law(route: &Route)
    ensures { Sendable (route_of route.now) }
{
    formed_law(route);
    fit_law(route.path.asns());
    fit_law(route.communities.as_slice());
    let _ = route.metrics.med == 0;
}

// The numbers of a row have 32 bits: a proof knows it of a parameter, and not of what a call gave.
fn fit_law(row: &[u32])
    ensures { Fit row.now }
{
    let _ = row.is_empty();
}

// What is written has 19 to 4096 bytes.
pub fn sizes()
    ensures { Sizes }
{}

// Each part of an UPDATE names just the prefixes that it holds.
pub fn names()
    ensures { Names }
{}
