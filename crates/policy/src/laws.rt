//! What is true of every policy.
ghost use Rattle.policy.specs.Laws.{PolicyLaws};

/// The first clause that decides is the last that counts, and what is accepted is a route as before.
pub fn policy_laws()
    ensures { PolicyLaws }
{}
