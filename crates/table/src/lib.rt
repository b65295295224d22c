//! The Adj-RIB-In in memory: the routes of all peers in one row, in the order of their keys.
#![tactic(auto)]

ghost use Rattle.std.specs.Prelude.{◌≤◌, length, vec_capacity};
ghost use Rattle.rib.specs.Received.{capacity};
ghost use Rattle.table.specs.Table.{Rises};

mod entry;
mod keys;
mod methods;

use entry::Entry;

/// What each peer last announced of each prefix. The memory for all routes is there from the start, so that keeping one can't fail.
#[derive(Drop)]
pub struct Table {
    entries: Vec<Entry>,
    ghost rises: { Rises entries.items },
    ghost few: { length entries.items ≤ capacity },
    ghost room: { capacity ≤ vec_capacity entries },
}
