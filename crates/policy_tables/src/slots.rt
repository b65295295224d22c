//! Making, clearing and looking up policies.
ghost use Rattle.std.specs.Prelude.{◌≡◌, IfOk, Some, length};
ghost use Rattle.policy_items.specs.Meant.{stored};
ghost use Rattle.policy_tables.specs.Meant.{content_of};
ghost use Rattle.policy_tables.specs.Texts.{direction_word, nothing, place_of};

use crate::{Direction, Policies};
use policy_items::Pool;
use std::alloc::{AllocError, Global};
use std::fmt;

impl Policies {
    /// No lists and no policies, and memory for those of any text.
    pub fn new(heap: Global) -> Result<Policies, AllocError>
        ensures { IfOk result (λ p. content_of p ≡ nothing) }
    {
        let lists = Vec::with_capacity(heap, 64)?;
        let pool = Pool::new(heap)?;
        Ok(Policies {
            lists,
            pool,
            spans: [None; 128],
        })
    }

    /// Takes all lists and policies out.
    pub(crate) fn clear(&mut self)
        ensures content { content_of self.new ≡ nothing }
        ensures count { length (stored self.new.pool) ≡ 0 }
    {
        self.lists.clear();
        self.spans = [None; 128];
        self.pool.clear();
    }
}

impl Direction {
    /// The place of the peer's policy in the row.
    pub(crate) fn place_of(self, peer: u8) -> usize
        ensures { result ≡ place_of self peer }
    {
        match self {
            Direction::Import => usize::from(peer),
            Direction::Export => 64 + usize::from(peer),
        }
    }
}

/// The word that begins a policy of that direction.
impl fmt::Display for Direction {
    ghost output = { λ d. Some (direction_word d) };

    fn fmt<W: fmt::Write>(&self, f: &mut fmt::Formatter<W>) -> fmt::Result {
        match self {
            Direction::Import => f.write_str("from"),
            Direction::Export => f.write_str("to"),
        }
    }
}
