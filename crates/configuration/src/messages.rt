//! What the program says of a text that it refuses.
ghost use Rattle.std.specs.Prelude.{◌≡◌};
ghost use Rattle.configuration.specs.Messages.{awaited_text, found_in, sign_bytes};
ghost use Rattle.text_tokens.specs.Places.{place_of};
ghost use Rattle.fault.specs.declared.Fault.TheVariants.{PolicyText};

use crate::TextRefusal;
use fault::Fault;
use policy_clauses::{Awaited, Refusal};
use text_tokens::{Kind, Place, Reader, Sign};

impl TextRefusal {
    /// The refusal of the text, with its place.
    pub fn of(text: &[u8], refusal: Refusal) -> TextRefusal
        ensures { result ≡ record { at = refusal.at; place = place_of text.now refusal.at; awaited = refusal.awaited } }
    {
        TextRefusal {
            at: refusal.at,
            place: Place::of(text, refusal.at),
            awaited: refusal.awaited,
        }
    }

    pub fn fault(&self) -> Fault
        ensures { result ≡ PolicyText }
    {
        Fault::PolicyText
    }

    /// The word or the sign that stands at the place; nothing at the end of the text.
    pub fn found<'t>(&self, text: &'t [u8]) -> &'t [u8]
        ensures { result.now ≡ found_in text.now self.now.at }
    {
        let rest = &text[self.at.min(text.len())..];
        match Reader::new(rest).next().kind {
            Kind::Word(word) => word,
            Kind::Sign(sign) => spelled(sign),
            Kind::End => &[],
        }
    }

    // no `Display`: a line keeps this text
    /// What is awaited there, in words.
    pub fn awaited_text(&self) -> &'static str
        ensures { result.now ≡ awaited_text self.now.awaited }
    {
        match self.awaited {
            Awaited::Item => "list, from or to",
            Awaited::NewName => "a name that no list above has",
            Awaited::Equals => "=",
            Awaited::Prefix => "a prefix, as 10.0.0.0/8",
            Awaited::ListEnd => "the end of the list: it has 64 prefixes",
            Awaited::Policy => "from or to: there are 64 lists",
            Awaited::Peer => "the number of a peer that has no such policy above",
            Awaited::Open => "{",
            Awaited::Clause => "if on a new line, or }",
            Awaited::Close => "}: there are 256 clauses",
            Awaited::Test => "a test (any, range, passes, marked, longer, not)",
            Awaited::InOrWithin => "in or within",
            Awaited::ListName => "the name of a list above",
            Awaited::Number => "a number of 32 bits",
            Awaited::AndOrThen => "and or then",
            Awaited::Then => "then: there are 16 parts",
            Awaited::Action => "an action (take, leave, like, far, mark, unmark, front)",
            Awaited::Times => "times",
            Awaited::Count => "a number of at most 8",
            Awaited::End => "the end of the text",
        }
    }
}

// no `Display`: what was found is told as bytes, and these outlive the text
fn spelled(sign: Sign) -> &'static [u8]
    ensures { result.now ≡ sign_bytes sign }
{
    match sign {
        Sign::Open => b"{",
        Sign::Close => b"}",
        Sign::Equals => b"=",
        Sign::Comma => b",",
    }
}
