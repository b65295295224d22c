//! What selection and export come to.
ghost use Rattle.selection.specs.Laws.{SelectionLaws};

/// The selected route is the one best route, and what a peer should hold follows from it and from nothing else.
pub fn selection_laws()
    ensures { SelectionLaws }
{}
