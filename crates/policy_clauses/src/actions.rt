//! What a clause does.
ghost use Rattle.std.specs.Prelude.{◌≡◌};
ghost use Rattle.policy_clauses.specs.Meant.{Reads, as_is};
ghost use Rattle.policy_clauses.specs.Reading.{action_of, times};
ghost use Rattle.text_tokens.specs.Meant.{left};

use crate::words::{number, word};
use crate::{Awaited, Refusal};
use policy::Action;
use policy_words::{ActionWord, action_word, number_of};
use text_tokens::Reader;

/// The action that stands next.
pub(crate) fn action(reader: &mut Reader<'_>) -> Result<Action, Refusal>
    ensures { Reads as_is action_of (left reader.old) (left reader.new) result }
{
    let word = word(reader, Awaited::Action)?;
    match action_word(word.text) {
        Some(ActionWord::Take) => Ok(Action::Accept),
        Some(ActionWord::Leave) => Ok(Action::Reject),
        Some(ActionWord::Like) => Ok(Action::SetLocalPref(number(reader, Awaited::Number)?)),
        Some(ActionWord::Far) => Ok(Action::SetMed(number(reader, Awaited::Number)?)),
        Some(ActionWord::Mark) => Ok(Action::AddCommunity(number(reader, Awaited::Number)?)),
        Some(ActionWord::Unmark) => Ok(Action::RemoveCommunity(number(reader, Awaited::Number)?)),
        Some(ActionWord::Front) => {
            let asn = number(reader, Awaited::Number)?;
            let times = times(reader)?;
            Ok(Action::Prepend { asn, times })
        }
        None => Err(Refusal::new(word.at, Awaited::Action)),
    }
}

/// `times` and how often: at most 8 times.
fn times(reader: &mut Reader<'_>) -> Result<u8, Refusal>
    ensures { Reads as_is times (left reader.old) (left reader.new) result }
{
    let word_times = word(reader, Awaited::Times)?;
    if word_times.text != "times" {
        return Err(Refusal::new(word_times.at, Awaited::Times));
    }
    let count = word(reader, Awaited::Count)?;
    match number_of(count.text.as_bytes()) {
        Some(times) if times <= 8 => Ok(times as u8),
        _ => Err(Refusal::new(count.at, Awaited::Count)),
    }
}
