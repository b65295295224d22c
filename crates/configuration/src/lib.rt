//! The policies in force, and reading a text in their place.
#![tactic(auto)]

use policy_clauses::Awaited;
use policy_tables::Policies;
use text_tokens::Place;

mod banks;
mod lines;
mod messages;

/// The policies in force, and memory beside them for the next text.
#[derive(Drop)]
pub struct Configuration {
    active: Policies,
    spare: Policies,
}

/// Why a text was refused: the place of what cannot be read, also as an offset, and what is awaited there.
#[derive(Clone, Copy)]
pub struct TextRefusal {
    pub at: usize,
    pub place: Place,
    pub awaited: Awaited,
}

/// What stands at the place of a refusal: a word or a sign that can be shown or not, the end of the text, or more than a text may have.
#[derive(Clone, Copy)]
enum Found<'t> {
    Word(&'t str),
    Bytes,
    End,
    More,
}

/// A refusal as one line, as `line 7, column 12: 'tke': awaited an action`.
#[derive(Clone, Copy)]
pub struct RefusalLine<'t> {
    place: Place,
    found: Found<'t>,
    awaited: &'static str,
}
