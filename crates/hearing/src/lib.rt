//! What a peer holds that reads the bytes it gets and does as it is told: just what it should hold.
#![tactic(auto)]

ghost use Rattle.hearing.specs.Laws.{HearingLaws, PlacedLaws};

/// What is read of the bytes that tell updates is what the updates tell, and the updates of every event can be told so.
pub fn hearing_laws()
    ensures hearing { HearingLaws }
    ensures placed { PlacedLaws }
{}
