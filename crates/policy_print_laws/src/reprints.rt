//! Texts in the one layout.
ghost use Rattle.policy_print_laws.specs.Reprinted.{Reprinted, Unchanged};
ghost use Rattle.policy_tables.specs.Meant.{content_of};
ghost use Rattle.policy_tables.specs.Texts.{meaning};
ghost use Rattle.std.specs.Prelude.{string_bytes, MatchResult};

use crate::Unprinted;
use policy_print::print;
use policy_tables::Policies;
use std::alloc::Global;

/// Reads the text and prints its policies anew, in the one layout: that text means the same.
pub fn reprint(
    heap: Global,
    policies: &mut Policies,
    peers: u8,
    text: &[u8],
) -> Result<String, Unprinted>
    ensures { MatchResult result (λ anew. Reprinted peers text.now (string_bytes anew) (content_of policies.new)) (λ e. Unchanged (meaning peers text.now) (content_of policies.new) e) }
{
    policies.read(peers, text)?;
    Ok(print(heap, policies)?)
}
