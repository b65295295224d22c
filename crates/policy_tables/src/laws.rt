//! What is true of every text.
ghost use Rattle.policy_tables.specs.Laws.{TextLaws};

/// Spacing and comments change nothing, each limit of a text is exact, and a name stands for the list written with it.
pub fn text_laws()
    ensures { TextLaws }
{}
