//! The lists and the rows of clauses of policy texts.
#![tactic(auto)]

ghost use Rattle.std.specs.Prelude.{◌≤◌, vec_capacity};

use policy::Clause;

mod laws;
mod lists;
mod pools;
mod signs;

pub use laws::limit_laws;
pub use lists::{list_head, prefix_list};
pub use signs::open;

/// The clauses of all policies of a text: a text of 65,536 bytes cannot have 4,096.
#[derive(Drop)]
pub struct Pool {
    clauses: Vec<Clause>,
    ghost roomy: { 4096 ≤ vec_capacity clauses },
}
