//! The clauses of all policies of a text.
ghost use Rattle.std.specs.Prelude.{◌≡◌, ◌-◌, ◌≤◌, min, true, [], map, length, take, drop, IfOk};
ghost use Rattle.policy_clauses.specs.Meant.{Reads, names_of, written_of};
ghost use Rattle.policy_items.specs.Items.{clauses};
ghost use Rattle.policy_items.specs.Meant.{stored};
ghost use Rattle.text_tokens.specs.Meant.{left};

use crate::Pool;
use crate::signs::{Start, start_of};
use policy::Clause;
use policy_clauses::{Awaited, Names, Refusal, clause};
use std::alloc::{AllocError, Global};
use text_tokens::Reader;

impl Pool {
    /// No clauses, and memory for 4,096.
    pub fn new(heap: Global) -> Result<Pool, AllocError>
        ensures { IfOk result (λ p. stored p ≡ []) }
    {
        let clauses = Vec::with_capacity(heap, 4096)?;
        Ok(Pool { clauses })
    }

    /// Takes all clauses out.
    pub fn clear(&mut self)
        ensures { stored self.new ≡ [] }
    {
        self.clauses.clear();
    }

    pub fn len(&self) -> usize
        ensures { result ≡ length (stored self.now) }
    {
        self.clauses.len()
    }

    /// All clauses.
    pub fn as_slice(&self) -> &[Clause]
        ensures { result.now ≡ stored self.now }
    {
        self.clauses.as_slice()
    }

    /// Reads the clauses of a policy, up to its `}`, and puts them behind those of the pool.
    #[tactic(auto, using(crate::proofs::Recursions::pooling))]
    pub fn read(&mut self, reader: &mut Reader<'_>, names: &Names<'_>) -> Result<(), Refusal>
        ensures new { Reads (λ _. map written_of (drop (length (stored self.old)) (stored self.new))) (clauses (min 256 (4096 - length (stored self.old))) (names_of names.now) true []) (left reader.old) (left reader.new) result }
        ensures old { take (length (stored self.old)) (stored self.new) ≡ stored self.old }
    {
        let start = self.clauses.len();
        let most = start.saturating_add(256).min(4096);
        loop {
            let token = reader.next();
            let first = self.clauses.len() == start;
            match start_of(token.kind) {
                Some(Start::Close) => return Ok(()),
                Some(Start::Clause) if first || token.fresh => {}
                _ => return Err(Refusal::new(token.at, Awaited::Clause)),
            }
            if self.clauses.len() >= most {
                return Err(Refusal::new(token.at, Awaited::Close));
            }
            let clause = clause(reader, names)?;
            self.clauses.push_reserved(clause);
        }
    }
}
