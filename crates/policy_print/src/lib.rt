//! Policies as a text in one layout.
#![tactic(auto)]

mod clauses;
mod lists;
mod policies;
mod shown;

pub use policies::print;
