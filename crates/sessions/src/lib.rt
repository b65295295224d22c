//! The sessions of all peers.
#![tactic(auto)]

ghost use Rattle.std.specs.Prelude.{◌≡◌, length};

use session::Session;

mod methods;

/// As many sessions as a byte can name.
pub const COUNT: usize = 256;

/// A session for each number that a byte can be. Those of numbers that no peer has stay down.
#[derive(Clone, Copy)]
pub struct Sessions {
    row: [Session; COUNT],
}
