//! Lists of prefixes.
ghost use Rattle.std.specs.Prelude.{◌≡◌};
ghost use Rattle.policy.specs.Meant.{prefixes_of};
ghost use Rattle.policy_clauses.specs.Meant.{Reads, names_of};
ghost use Rattle.policy_items.specs.Items.{list_head, prefix, prefix_list};
ghost use Rattle.prefix.specs.Meant.{meant};
ghost use Rattle.text_tokens.specs.Meant.{left};

use crate::signs::{comma, equals};
use policy::PrefixList;
use policy_clauses::{Awaited, Names, Refusal, word};
use policy_words::{is_name, prefix_of};
use prefix::Prefix;
use text_tokens::Reader;

/// The name of a list, which no list above has, and `=`.
pub fn list_head<'a>(reader: &mut Reader<'a>, names: &Names<'_>) -> Result<&'a [u8], Refusal>
    ensures { Reads (λ name. name.now) (list_head (names_of names.now)) (left reader.old) (left reader.new) result }
{
    let word = word(reader, Awaited::NewName)?;
    let name = word.text.as_bytes();
    if !is_name(name) || names.number(name).is_some() {
        return Err(Refusal::new(word.at, Awaited::NewName));
    }
    equals(reader)?;
    Ok(name)
}

/// The prefixes of a list.
#[tactic(auto, using(crate::proofs::Recursions::listing))]
pub fn prefix_list(reader: &mut Reader<'_>) -> Result<PrefixList, Refusal>
    ensures { Reads prefixes_of prefix_list (left reader.old) (left reader.new) result }
{
    let mut list = PrefixList::new();
    loop {
        let prefix = prefix(reader)?;
        let _ = list.push(prefix);
        let Some(at) = comma(reader) else {
            return Ok(list);
        };
        if list.as_slice().len() >= 64 {
            return Err(Refusal::new(at, Awaited::ListEnd));
        }
    }
}

fn prefix(reader: &mut Reader<'_>) -> Result<Prefix, Refusal>
    ensures { Reads meant prefix (left reader.old) (left reader.new) result }
{
    let word = word(reader, Awaited::Prefix)?;
    prefix_of(word.text.as_bytes()).ok_or(Refusal::new(word.at, Awaited::Prefix))
}
