//! Whole texts.
ghost use Rattle.std.specs.Prelude.{◌≡◌, ◌<◌, IfOk, string_bytes};
ghost use Rattle.policy_print.specs.Printed.{policies_text, policy_text, printed};
ghost use Rattle.policy_print.specs.Puts.{Puts};
ghost use Rattle.policy_tables.specs.Meant.{content_of, named_of};

use crate::clauses::put_clauses;
use crate::lists::put_lists;
use policy::Clause;
use policy_tables::{Direction, Policies};
use std::alloc::{AllocError, Global};

/// The policies as a text: lists first, then the policies for import and those for export by the number of the peer. Lists are called l0, l1, .. in their order.
pub fn print(heap: Global, policies: &Policies) -> Result<String, AllocError>
    ensures { IfOk result (λ text. string_bytes text ≡ printed (content_of policies.now)) }
{
    let mut text = String::new(heap);
    put_lists(&mut text, policies.lists())?;
    put_policies(&mut text, policies, Direction::Import)?;
    put_policies(&mut text, policies, Direction::Export)?;
    Ok(text)
}

/// Appends the policies of one direction.
#[tactic(auto, using(crate::proofs::Recursions::putting))]
fn put_policies(
    text: &mut String,
    policies: &Policies,
    direction: Direction,
) -> Result<(), AllocError>
    ensures { Puts (string_bytes text.old) (policies_text direction 64 (content_of policies.now)) (string_bytes text.new) result }
{
    for peer in 0..64 {
        put_policy(text, direction, peer, policies.clauses(direction, peer))?;
    }
    Ok(())
}

/// Appends the policy of a peer, if it has one.
fn put_policy(
    text: &mut String,
    direction: Direction,
    peer: u8,
    clauses: Option<&[Clause]>,
) -> Result<(), AllocError>
    ensures { Puts (string_bytes text.old) (policy_text direction peer (named_of clauses.entry)) (string_bytes text.new) result }
{
    let Some(clauses) = clauses else {
        return Ok(());
    };
    write!(text, "{direction} {peer} {{\n")?;
    put_clauses(text, clauses)?;
    write!(text, "}}\n")
}
