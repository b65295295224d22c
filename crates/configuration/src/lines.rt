//! A refusal as a line of text.
ghost use Rattle.std.specs.Prelude.{◌≡◌, if◌then◌else◌, Some, None};
ghost use Rattle.configuration.specs.Messages.{are_visible, found_text, is_shown, line_of, place_text, refusal_line, word_text};
ghost use Rattle.std.specs.Option.{option_map};

use crate::{Found, RefusalLine, TextRefusal};
use policy_words::text_of;
use std::fmt;

impl TextRefusal {
    /// The refusal of the text as one line: the place, what stands there, and what is awaited.
    pub fn line<'t>(&self, text: &'t [u8]) -> RefusalLine<'t>
        ensures { line_of result ≡ refusal_line text.now self.now }
    {
        RefusalLine {
            place: self.place,
            found: self.found_in(text),
            awaited: self.awaited_text(),
        }
    }

    /// What stands at the place in the text.
    fn found_in<'t>(&self, text: &'t [u8]) -> Found<'t>
        ensures { found_text result ≡ place_text text.now self.now.at }
    {
        let at = self.at;
        if at >= 65536 && at < text.len() {
            Found::More
        } else {
            found_as(self.found(text))
        }
    }
}

/// What stands at a place, as it is shown.
fn found_as(word: &[u8]) -> Found<'_>
    ensures { found_text result ≡ word_text word.now }
{
    if word.is_empty() {
        return Found::End;
    }
    shown(word).map_or(Found::Bytes, Found::Word)
}

/// The word as a text, if it has at most 40 bytes, which can all be seen.
#[tactic(auto, using(crate::proofs::Placing::visible_ascii))]
fn shown(word: &[u8]) -> Option<&str>
    ensures { option_map (λ x. x.now) result ≡ (if is_shown word.now then Some word.now else None) }
{
    if word.len() <= 40 && are_visible(word) {
        text_of(word)
    } else {
        None
    }
}

fn are_visible(word: &[u8]) -> bool
    ensures { result ≡ are_visible word.now }
{
    word.iter().all(|byte| byte.is_ascii_graphic())
}

impl fmt::Display for RefusalLine<'_> {
    ghost output = { λ x. Some (line_of x) };

    fn fmt<W: fmt::Write>(&self, f: &mut fmt::Formatter<W>) -> fmt::Result {
        let line = self.place.line;
        let column = self.place.column;
        let found = self.found;
        let awaited = self.awaited;
        write!(
            f,
            "line {line}, column {column}: {found}: awaited {awaited}"
        )
    }
}

impl fmt::Display for Found<'_> {
    ghost output = { λ x. Some (found_text x) };

    fn fmt<W: fmt::Write>(&self, f: &mut fmt::Formatter<W>) -> fmt::Result {
        match self {
            Found::Word(word) => write!(f, "'{word}'"),
            Found::Bytes => f.write_str("this word"),
            Found::End => f.write_str("the text ends"),
            Found::More => f.write_str("the text goes on"),
        }
    }
}
