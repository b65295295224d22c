//! What is true of the tokens of every text.
ghost use Rattle.text_tokens.specs.Spacing.{SpacingLaws};

/// Comments, blank lines and spacing change nothing but the places of tokens.
pub fn spacing_laws()
    ensures { SpacingLaws }
{}
