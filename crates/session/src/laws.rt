//! What the clocks of a session come to, over everything that can happen to it.
ghost use Rattle.session.specs.Clocks.{ClockLaws};

/// A session is kept up by what comes, goes down at 90 seconds of silence, and always sends within 30 seconds.
pub fn clock_laws()
    ensures { ClockLaws }
{}
