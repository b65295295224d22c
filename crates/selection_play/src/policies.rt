//! The policies of a situation.
ghost use Rattle.std.specs.Prelude.{◌≡◌};
ghost use Rattle.policy.specs.Meant.{policy_of};
ghost use Rattle.selection_play.specs.Clauses.{policy_at};

use anyhow::Context;
use example_words::{always, byte, read_clause};
use policy::{Action, Clause, Policy};
use selection::PolicySource;
use std::str::SplitWhitespace;

/// How many clauses each policy has.
const CLAUSES: usize = 5;

/// How many peers have policies with clauses.
const PEERS: usize = 4;

/// The clauses of the policies of four peers; the policies of all other peers have no clauses.
#[derive(Clone, Copy)]
pub struct Policies {
    pub imports: [[Clause; CLAUSES]; PEERS],
    pub exports: [[Clause; CLAUSES]; PEERS],
}

impl PolicySource for Policies {
    ghost imports = { λ p i. policy_at p.imports i };

    ghost exports = { λ p i. policy_at p.exports i };

    fn import_policy(&self, peer: u8) -> Policy<'_> {
        policy_at(&self.imports, peer)
    }

    fn export_policy(&self, peer: u8) -> Policy<'_> {
        policy_at(&self.exports, peer)
    }
}

impl Policies {
    /// Every policy accepts everything.
    pub fn accepting() -> Policies {
        let accept = [[always(Action::Accept); CLAUSES]; PEERS];
        Policies {
            imports: accept,
            exports: accept,
        }
    }
}

/// The policy of the peer, which refers to no lists.
fn policy_at(clauses: &[[Clause; CLAUSES]], peer: u8) -> Policy<'_>
    ensures { policy_of result ≡ policy_at clauses.now peer }
{
    Policy {
        clauses: match clauses.get(usize::from(peer)) {
            Some(clauses) => clauses,
            None => &[],
        },
        lists: &[],
    }
}

/// Reads a peer's number and the clauses of its policy; behind them everything is accepted.
pub fn read_clauses(
    clauses: &mut [[Clause; CLAUSES]],
    words: &mut SplitWhitespace<'_>,
) -> anyhow::Result<()> {
    let peer = usize::from(byte(words)?);
    for place in 0..CLAUSES {
        let Some(word) = words.next() else {
            break;
        };
        let clause = read_clause(word, words)?;
        let policy = clauses.get_mut(peer).context("the peer has no policies")?;
        policy[place] = clause;
    }
    Ok(())
}
