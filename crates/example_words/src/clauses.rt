//! Reading clauses, as `if passes 9 and not marked 7 then like 200`; a clause without a condition is `then take`.
use crate::{byte, next, number};
use anyhow::anyhow;
use policy::{Action, Clause, Condition, Part, Test};
use std::str::SplitWhitespace;

/// The most parts of a condition.
const MOST_PARTS: u8 = 16;

/// The clause that begins with that word.
pub fn read_clause(word: &str, words: &mut SplitWhitespace<'_>) -> anyhow::Result<Clause> {
    let mut condition = Condition::new();
    if word != "then" {
        for _ in 0..MOST_PARTS {
            let _ = condition.push(read_part(words)?);
            if next(words)? == "then" {
                break;
            }
        }
    }
    let action = read_action(words)?;
    Ok(Clause { condition, action })
}

/// A test, or `not` and a test.
pub fn read_part(words: &mut SplitWhitespace<'_>) -> anyhow::Result<Part> {
    let mut word = next(words)?;
    let negated = word == "not";
    if negated {
        word = next(words)?;
    }
    let test = read_test(word, words)?;
    Ok(Part { negated, test })
}

/// Lists go by their numbers.
fn read_test(word: &str, words: &mut SplitWhitespace<'_>) -> anyhow::Result<Test> {
    match word {
        "any" => Ok(Test::Any),
        "in" => Ok(Test::PrefixIn { list: byte(words)? }),
        "within" => Ok(Test::PrefixWithin { list: byte(words)? }),
        "passes" => Ok(Test::Passes {
            asn: number(words)?,
        }),
        "marked" => Ok(Test::HasCommunity {
            community: number(words)?,
        }),
        "longer" => Ok(Test::LongerThan {
            asns: number(words)?,
        }),
        _ => Err(anyhow!("a test is missing")),
    }
}

pub fn read_action(words: &mut SplitWhitespace<'_>) -> anyhow::Result<Action> {
    match next(words)? {
        "take" => Ok(Action::Accept),
        "leave" => Ok(Action::Reject),
        "like" => Ok(Action::SetLocalPref(number(words)?)),
        "far" => Ok(Action::SetMed(number(words)?)),
        "mark" => Ok(Action::AddCommunity(number(words)?)),
        "unmark" => Ok(Action::RemoveCommunity(number(words)?)),
        "front" => Ok(Action::Prepend {
            asn: number(words)?,
            times: byte(words)?,
        }),
        _ => Err(anyhow!("an action is missing")),
    }
}
