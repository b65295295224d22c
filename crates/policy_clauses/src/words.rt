//! One word or number at a time.
ghost use Rattle.std.specs.Prelude.{◌≡◌};
ghost use Rattle.policy_clauses.specs.Meant.{Reads, as_is, spelled_of};
ghost use Rattle.policy_clauses.specs.Reading.{number, word};
ghost use Rattle.text_tokens.specs.Meant.{left};

use crate::{Awaited, Refusal, Spelled};
use policy_words::{number_of, text_of};
use text_tokens::{Kind, Reader};

/// The next word, on the same line.
pub fn word<'a>(reader: &mut Reader<'a>, awaited: Awaited) -> Result<Spelled<'a>, Refusal>
    ensures { Reads spelled_of (word awaited) (left reader.old) (left reader.new) result }
{
    let token = reader.next();
    let refusal = Refusal::new(token.at, awaited);
    if token.fresh {
        return Err(refusal);
    }
    let Kind::Word(bytes) = token.kind else {
        return Err(refusal);
    };
    let text = text_of(bytes).ok_or(refusal)?;
    Ok(Spelled { at: token.at, text })
}

/// The next word, which must be a number.
pub fn number(reader: &mut Reader<'_>, awaited: Awaited) -> Result<u32, Refusal>
    ensures { Reads as_is (number awaited) (left reader.old) (left reader.new) result }
{
    let word = word(reader, awaited)?;
    number_of(word.text.as_bytes()).ok_or(Refusal::new(word.at, awaited))
}
