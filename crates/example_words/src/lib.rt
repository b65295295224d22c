//! The words of examples: what the tables of the test programs are written in, the values that examples are made of, and
//! how routes are printed.
#![tactic(auto)]

mod clauses;
mod printing;
mod values;
mod words;

pub use clauses::{read_action, read_clause, read_part};
pub use printing::{show_numbers, show_route};
pub use values::{BEST_TO_WORST, always, eight, plain_route, prefix_or_whole, there, when};
pub use words::{byte, dotted, next, number, numbers};
