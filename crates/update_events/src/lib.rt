//! An UPDATE as events of the server: of each prefix that it names its last word, in rising order of prefixes.
#![tactic(auto)]

use update::Content;

mod handing;
mod naming;
mod needing;

/// What a peer says by an UPDATE: what is read of the message, and the message, which names the prefixes.
#[derive(Clone, Copy)]
pub struct Saying<'a> {
    pub peer: u8,
    pub content: &'a Content,
    pub message: &'a [u8],
}
