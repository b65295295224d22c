//! The route server as it should be, and what is promised of it.
#![tactic(auto)]

ghost use Rattle.model.specs.Promise.{Main, Order};

/// What the server's events are promised to keep, true of the model after every list of events.
pub fn promise()
    ensures main { Main }
    ensures order { Order }
{}
