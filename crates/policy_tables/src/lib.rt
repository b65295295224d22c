//! The policies of all peers, read from one text as a whole.
#![tactic(auto)]

ghost use Rattle.std.specs.Prelude.{◌≡◌, ◌≤◌, true, length, vec_capacity};
ghost use Rattle.policy_tables.specs.Slots.{all_fit};
ghost use Rattle.policy_items.specs.Meant.{stored};

use policy::PrefixList;
use policy_clauses::Names;
use policy_items::Pool;
use text_tokens::Reader;

mod laws;
mod lookups;
mod reads;
mod slots;
mod sources;

pub use laws::text_laws;

/// The two policies of a peer: for what it announces, and for what it is advertised.
#[derive(Clone, Copy)]
pub enum Direction {
    Import,
    Export,
}

/// Where the clauses of a policy stand in the pool.
#[derive(Clone, Copy)]
struct Span {
    start: usize,
    count: usize,
}

/// What is left of a text, the names of its lists so far, and how many peers there are.
#[derive(Clone, Copy)]
struct Unread<'a> {
    reader: Reader<'a>,
    names: Names<'a>,
    peers: u8,
}

/// The policies of one text: for each of 64 peers those for import, and then those for export; a policy that the text does not name has no span.
#[derive(Drop)]
pub struct Policies {
    lists: Vec<PrefixList>,
    pool: Pool,
    spans: [Option<Span>; 128],
    ghost roomy: { 64 ≤ vec_capacity lists },
    ghost fitting: { all_fit (length (stored pool)) spans ≡ true },
}
