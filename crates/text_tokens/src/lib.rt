//! A policy text as a row of tokens: words and signs, with their places.
#![tactic(auto)]

mod classes;
mod gaps;
mod laws;
mod places;
mod readers;

pub use laws::spacing_laws;

/// The signs of policy texts: `{`, `}`, `=` and `,`.
#[derive(Clone, Copy, Debug, PartialEq, Eq)]
pub enum Sign {
    Open,
    Close,
    Equals,
    Comma,
}

/// What a byte is to the scanner; a `Letter` is any byte that can stand in a word.
#[derive(Clone, Copy)]
enum Class {
    Blank,
    LineEnd,
    Hash,
    Sign(Sign),
    Letter,
}

#[derive(Clone, Copy)]
pub enum Kind<'a> {
    Word(&'a [u8]),
    Sign(Sign),
    End,
}

/// A token, the offset of its first byte, and whether it is the first one on its line.
#[derive(Clone, Copy)]
pub struct Token<'a> {
    pub at: usize,
    pub fresh: bool,
    pub kind: Kind<'a>,
}

/// What is left of a text: the tokens from offset `at` on.
#[derive(Clone, Copy)]
pub struct Reader<'a> {
    text: &'a [u8],
    at: usize,
    fresh: bool,
}

/// A place in a text, both counted from 1; a column is a byte.
#[derive(Clone, Copy, Debug, PartialEq, Eq)]
pub struct Place {
    pub line: usize,
    pub column: usize,
}
