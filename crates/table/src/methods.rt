//! The table as an Adj-RIB-In.
ghost use Rattle.std.specs.Prelude.{◌≡◌, ℕ, ◌%◌, ◌==◌, not, IfOk, None};
ghost use Rattle.table.specs.Meant.{received_by};

use crate::Table;
use crate::entry::Entry;
use crate::keys::{STRIDE, key_of};
use prefix::{COUNT, Prefix};
use rib::Rib;
use route::Route;
use rows::Full;
use std::alloc::{AllocError, Global};

/// How many routes there is room for, and how many peers there can be.
const CAPACITY: usize = 16_384;

const MOST_PEERS: u8 = 64;

impl Table {
    /// A table that holds nothing.
    #[tactic(auto, using(crate::proofs::Counting::nowhere))]
    pub fn new(heap: Global) -> Result<Table, AllocError>
        ensures { IfOk result (λ t. (peer prefix : ℕ) → received_by t peer prefix ≡ None) }
    {
        let entries = Vec::with_capacity(heap, CAPACITY)?;
        Ok(Table { entries })
    }
}

impl Rib for Table {
    ghost received = { received_by };

    fn get(&self, peer: u8, prefix: Prefix) -> Option<&Route> {
        let i = self.find(peer, &prefix).ok()?;
        Some(&self.entries[i].route)
    }

    #[tactic(auto, using(crate::proofs::Changes::silent, crate::proofs::Changes::announced))]
    fn next_peer(&self, prefix: Prefix, from: u8, until: u8) -> Option<u8> {
        let start = key_of(0, &prefix);
        let e = self.first_between(start + u64::from(from), start + u64::from(until))?;
        Some((e.key - start) as u8)
    }

    #[tactic(auto, using(crate::proofs::Changes::unannounced, crate::proofs::Changes::lowest, crate::proofs::Changes::somebody))]
    fn next_prefix(&self, from: u32) -> Option<Prefix> {
        let e = self.first_between(u64::from(from) * STRIDE, u64::from(COUNT) * STRIDE)?;
        Some(e.route.prefix)
    }

    #[tactic(auto, using(crate::proofs::Counting::stored_is))]
    fn len(&self) -> usize {
        self.entries.len()
    }

    fn put(&mut self, peer: u8, route: &Route) -> Result<(), Full> {
        if peer >= MOST_PEERS {
            return Err(Full);
        }
        let entry = Entry::new(peer, route);
        match self.find(peer, &route.prefix) {
            Ok(i) => {
                self.entries[i] = entry;
                Ok(())
            }
            Err(i) => {
                if self.entries.len() >= CAPACITY {
                    return Err(Full);
                }
                self.entries.insert(i, entry).map_err(|_| Full)
            }
        }
    }

    fn remove(&mut self, peer: u8, prefix: Prefix) {
        if let Ok(i) = self.find(peer, &prefix) {
            self.entries.remove(i);
        }
    }

    fn clear(&mut self, peer: u8) {
        // The clause says what stays, so that a wrong test is refused here.
        self.entries.retain(
            |e|
                ensures { result ≡ not (e.now.key % 256 == peer) }
            { e.key % STRIDE != u64::from(peer) },
        );
    }
}
