//! What a clause asks, and whole clauses.
ghost use Rattle.std.specs.Prelude.{◌≡◌, false};
ghost use Rattle.policy.specs.Meant.{parts_of};
ghost use Rattle.policy_clauses.specs.Meant.{Reads, as_is, names_of, written_of};
ghost use Rattle.policy_clauses.specs.Reading.{clause, condition, list_name, part, range_of, test_at};
ghost use Rattle.text_tokens.specs.Meant.{left};

use crate::actions::action;
use crate::words::{number, word};
use crate::{Awaited, Names, Refusal};
use policy::{Clause, Condition, Part, Test};
use policy_words::{JointWord, RangeWord, TestWord, joint_word, range_word, test_word};
use text_tokens::Reader;

/// The clause that stands next, behind its `if`.
pub fn clause(reader: &mut Reader<'_>, names: &Names<'_>) -> Result<Clause, Refusal>
    ensures { Reads written_of (clause (names_of names.now)) (left reader.old) (left reader.new) result }
{
    let condition = condition(reader, names)?;
    let action = action(reader)?;
    Ok(Clause { condition, action })
}

/// The condition that stands next, with the `then` behind it.
#[tactic(auto, using(crate::proofs::Recursions::parting))]
fn condition(reader: &mut Reader<'_>, names: &Names<'_>) -> Result<Condition, Refusal>
    ensures { Reads parts_of (condition (names_of names.now)) (left reader.old) (left reader.new) result }
{
    let mut condition = Condition::new();
    loop {
        let part = part(reader, names)?;
        let _ = condition.push(part);
        let word = word(reader, Awaited::AndOrThen)?;
        match joint_word(word.text) {
            Some(JointWord::And) if condition.as_slice().len() < 16 => {}
            Some(JointWord::And) => return Err(Refusal::new(word.at, Awaited::Then)),
            Some(JointWord::Then) => return Ok(condition),
            None => return Err(Refusal::new(word.at, Awaited::AndOrThen)),
        }
    }
}

/// The part that stands next.
#[tactic(auto, using(crate::proofs::Recursions::part_more, crate::proofs::Recursions::fewer))]
fn part(reader: &mut Reader<'_>, names: &Names<'_>) -> Result<Part, Refusal>
    ensures { Reads as_is (part (names_of names.now) false) (left reader.old) (left reader.new) result }
{
    let mut negated = false;
    loop {
        let word = word(reader, Awaited::Test)?;
        match test_word(word.text) {
            Some(TestWord::Not) => negated = !negated,
            first => {
                let test = test_at(reader, names, word.at, first)?;
                return Ok(Part { negated, test });
            }
        }
    }
}

/// A test behind its first word, which stands at the offset.
fn test_at(
    reader: &mut Reader<'_>,
    names: &Names<'_>,
    at: usize,
    first: Option<TestWord>,
) -> Result<Test, Refusal>
    ensures { Reads as_is (test_at (names_of names.now) at first) (left reader.old) (left reader.new) result }
{
    match first {
        Some(TestWord::Any) => Ok(Test::Any),
        Some(TestWord::Range) => range_test(reader, names),
        Some(TestWord::Passes) => {
            let asn = number(reader, Awaited::Number)?;
            Ok(Test::Passes { asn })
        }
        Some(TestWord::Marked) => {
            let community = number(reader, Awaited::Number)?;
            Ok(Test::HasCommunity { community })
        }
        Some(TestWord::Longer) => {
            let asns = number(reader, Awaited::Number)?;
            Ok(Test::LongerThan { asns })
        }
        Some(TestWord::Not) | None => Err(Refusal::new(at, Awaited::Test)),
    }
}

/// A test of the prefix, behind `range`.
fn range_test(reader: &mut Reader<'_>, names: &Names<'_>) -> Result<Test, Refusal>
    ensures { Reads as_is (range_of (names_of names.now)) (left reader.old) (left reader.new) result }
{
    let word = word(reader, Awaited::InOrWithin)?;
    match range_word(word.text) {
        Some(RangeWord::In) => {
            let list = list_name(reader, names)?;
            Ok(Test::PrefixIn { list })
        }
        Some(RangeWord::Within) => {
            let list = list_name(reader, names)?;
            Ok(Test::PrefixWithin { list })
        }
        None => Err(Refusal::new(word.at, Awaited::InOrWithin)),
    }
}

/// The number of the list that is named next.
fn list_name(reader: &mut Reader<'_>, names: &Names<'_>) -> Result<u8, Refusal>
    ensures { Reads as_is (list_name (names_of names.now)) (left reader.old) (left reader.new) result }
{
    let word = word(reader, Awaited::ListName)?;
    let number = names.number(word.text.as_bytes());
    number.ok_or(Refusal::new(word.at, Awaited::ListName))
}
