//! Clauses: conditions and actions.
ghost use Rattle.std.specs.Prelude.{◌≡◌, [], map, string_bytes};
ghost use Rattle.policy_clauses.specs.Meant.{written_of};
ghost use Rattle.policy_print.specs.Printed.{clause_text, clauses_text, parts_text};
ghost use Rattle.policy_print.specs.Puts.{Puts};

use crate::shown::Shown;
use policy::{Clause, Part};
use std::alloc::AllocError;

/// Appends the clauses, one to a line.
#[tactic(auto, using(crate::proofs::Recursions::putting))]
pub(crate) fn put_clauses(text: &mut String, clauses: &[Clause]) -> Result<(), AllocError>
    ensures { Puts (string_bytes text.old) (clauses_text (map written_of clauses.now)) (string_bytes text.new) result }
{
    for clause in clauses {
        put_clause(text, clause)?;
    }
    Ok(())
}

fn put_clause(text: &mut String, clause: &Clause) -> Result<(), AllocError>
    ensures { Puts (string_bytes text.old) (clause_text (written_of clause.now)) (string_bytes text.new) result }
{
    write!(text, "    if ")?;
    put_parts(text, clause.condition.as_slice())?;
    let action = Shown(clause.action);
    write!(text, " then {action}\n")
}

/// Appends the parts of a condition, with `and` between them.
#[tactic(auto, using(crate::proofs::Recursions::putting))]
fn put_parts(text: &mut String, parts: &[Part]) -> Result<(), AllocError>
    ensures { Puts (string_bytes text.old) (parts_text [] parts.now) (string_bytes text.new) result }
{
    let mut before = "";
    for part in parts {
        let part = Shown(*part);
        write!(text, "{before}{part}")?;
        before = " and ";
    }
    Ok(())
}
