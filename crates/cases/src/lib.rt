//! What the route server sends in worked cases.
#![tactic(auto)]

ghost use Rattle.cases.specs.Cases.{WorkedCases};
ghost use Rattle.cases.specs.Few.{OfFew};

/// Where all announcements are of a few prefixes and there is room for them, what an event sends is worked out from these prefixes alone.
pub fn of_few_prefixes()
    ensures { OfFew }
{}

/// Each row of the table of worked cases holds of the model.
pub fn worked_cases()
    ensures { WorkedCases }
{}
