//! Pulling one token at a time.
ghost use Rattle.std.specs.Prelude.{◌≡◌, ◌<◌, false, length, drop, slice_index};
ghost use Rattle.text_tokens.specs.Meant.{left, pulled, pulled_as};
ghost use Rattle.text_tokens.specs.Tokens.{Begins, Between, Run, class_of, is_letter, scan, tokens};

use crate::classes::class_of;
use crate::gaps::skip;
use crate::{Class, Kind, Reader, Token};

impl<'a> Reader<'a> {
    /// The whole text.
    pub fn new(text: &'a [u8]) -> Reader<'a>
        ensures { left result ≡ tokens text.now }
    {
        Reader {
            text,
            at: 0,
            fresh: true,
        }
    }

    /// Takes the next token; at the end of the text, always `End`.
    pub fn next(&mut self) -> Token<'a>
        ensures { left self.old ≡ pulled result (left self.new) }
    {
        let text = self.text;
        let (at, fresh) = skip(text, self.at, self.fresh);
        let (kind, end) = kind_at(text, at, fresh);
        self.at = end;
        self.fresh = false;
        Token { at, fresh, kind }
    }
}

/// The token that begins at the offset, and the offset behind it.
#[tactic(auto, using(crate::proofs::Scanning::scanning))]
fn kind_at<'a>(text: &'a [u8], at: usize, fresh: bool) -> (Kind<'a>, usize)
    requires { at < length text.now → Begins (class_of (slice_index text.now at)) }
    ensures { scan (Between fresh) at (drop at text.now) ≡ pulled_as at fresh result.0 (scan (Between false) result.1 (drop result.1 text.now)) }
{
    if at >= text.len() {
        return (Kind::End, at);
    }
    if let Class::Sign(sign) = class_of(text[at]) {
        return (Kind::Sign(sign), at + 1);
    }
    let end = word_end(text, at);
    (Kind::Word(&text[at..end]), end)
}

/// Where the word that begins at the offset ends.
fn word_end(text: &[u8], start: usize) -> usize
    requires { (start < length text.now) × (class_of (slice_index text.now start) ≡ Class.Letter) }
    ensures { Run text.now start result }
{
    // by places, since the place is the answer
    for at in start + 1..text.len() {
        if !is_letter(text[at]) {
            return at;
        }
    }
    text.len()
}

fn is_letter(byte: u8) -> bool
    ensures { result ≡ is_letter byte }
{
    matches!(class_of(byte), Class::Letter)
}
