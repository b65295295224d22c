//! The clauses of policy texts: conditions, actions, and what is awaited where one cannot be read.
#![tactic(auto)]

mod actions;
mod conditions;
mod refusals;
mod scopes;
mod words;

pub use conditions::clause;
use rows::Row;
pub use words::{number, word};

/// What is awaited at the place of a refusal.
#[derive(Clone, Copy, Debug, PartialEq, Eq)]
pub enum Awaited {
    /// `list`, `from` or `to`.
    Item,
    /// A name for a list that no list above has.
    NewName,
    /// `=` behind the name of a list.
    Equals,
    /// A prefix, as 10.0.0.0/8.
    Prefix,
    /// No more prefixes: 64 are the most in a list.
    ListEnd,
    /// `from` or `to`: 64 lists are the most.
    Policy,
    /// The number of a peer that has no such policy yet.
    Peer,
    /// `{` behind the number of a peer.
    Open,
    /// `if` on a line of its own, or `}`.
    Clause,
    /// `}`: 256 clauses are the most in a policy.
    Close,
    /// `any`, `range`, `passes`, `marked`, `longer` or `not`.
    Test,
    /// `in` or `within`.
    InOrWithin,
    /// The name of a list above.
    ListName,
    /// A number of 32 bits.
    Number,
    /// `and` or `then`.
    AndOrThen,
    /// `then`: 16 parts are the most in a condition.
    Then,
    /// `take`, `leave`, `like`, `far`, `mark`, `unmark` or `front`.
    Action,
    /// `times` behind the number of an autonomous system.
    Times,
    /// A number of at most 8.
    Count,
    /// The end: a text has at most 65,536 bytes.
    End,
}

/// Where a text cannot be read, as an offset, and what is awaited there.
#[derive(Clone, Copy, Debug, PartialEq, Eq)]
pub struct Refusal {
    pub at: usize,
    pub awaited: Awaited,
}

/// A word with its offset.
#[derive(Clone, Copy)]
pub struct Spelled<'a> {
    pub at: usize,
    pub text: &'a str,
}

/// The names of the lists so far, in the order of the lists.
#[derive(Clone, Copy)]
pub struct Names<'a> {
    words: Row<&'a [u8], 64>,
}
