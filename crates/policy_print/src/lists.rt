//! Lists of prefixes.
ghost use Rattle.std.specs.Prelude.{◌≡◌, [], map, string_bytes};
ghost use Rattle.policy.specs.Meant.{prefixes_of};
ghost use Rattle.policy_print.specs.Printed.{list_text, lists_text, prefixes_text};
ghost use Rattle.policy_print.specs.Puts.{Puts};
ghost use Rattle.prefix.specs.Meant.{meant};

use policy::PrefixList;
use prefix::Prefix;
use std::alloc::AllocError;

/// Appends the lists, one to a line.
#[tactic(auto, using(crate::proofs::Recursions::putting))]
pub(crate) fn put_lists(text: &mut String, lists: &[PrefixList]) -> Result<(), AllocError>
    ensures { Puts (string_bytes text.old) (lists_text 0 (map prefixes_of lists.now)) (string_bytes text.new) result }
{
    // the number is a part of the list's name
    for (number, list) in lists.iter().enumerate() {
        put_list(text, number, list)?;
    }
    Ok(())
}

/// Appends the list of that number.
fn put_list(text: &mut String, number: usize, list: &PrefixList) -> Result<(), AllocError>
    ensures { Puts (string_bytes text.old) (list_text number (prefixes_of list.now)) (string_bytes text.new) result }
{
    write!(text, "list l{number} = ")?;
    put_prefixes(text, list.as_slice())?;
    write!(text, "\n")
}

// beside `put_parts`: one function for both would take what is shown as an iterator, which is no plainer
/// Appends the prefixes, with commas between them.
#[tactic(auto, using(crate::proofs::Recursions::putting))]
fn put_prefixes(text: &mut String, prefixes: &[Prefix]) -> Result<(), AllocError>
    ensures { Puts (string_bytes text.old) (prefixes_text [] (map meant prefixes.now)) (string_bytes text.new) result }
{
    let mut before = "";
    for prefix in prefixes {
        write!(text, "{before}{prefix}")?;
        before = ", ";
    }
    Ok(())
}
