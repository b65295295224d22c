//! What is true of the limits of every text.
ghost use Rattle.policy_items.specs.Limits.{LimitLaws};

/// 16 parts, 64 prefixes and 256 clauses are read, and one more is refused.
pub fn limit_laws()
    ensures { LimitLaws }
{}
