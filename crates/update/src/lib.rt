//! UPDATE messages.
#![tactic(auto)]

mod finding;
mod layout;
mod reading;

use fault::Fault;
pub use layout::{Sections, split_update};
pub use reading::read_update;
use route::{Communities, Path};

/// What the announced prefixes have in common.
#[derive(Clone, Copy)]
pub struct Attributes {
    pub path: Path,
    pub med: u32,
    pub communities: Communities,
}

/// What an UPDATE says of its prefixes.
#[derive(Clone, Copy)]
pub enum Content {
    // There is no route for the withdrawn prefixes, and one with these attributes for each announced prefix.
    Announces(Attributes),
    // There is no route for the withdrawn prefixes, and none is announced.
    Withdraws,
    // There is no route for any of its prefixes, since the message has this fault.
    Faulty(Fault),
}
