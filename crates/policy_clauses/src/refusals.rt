//! Where a text cannot be read.
ghost use Rattle.std.specs.Prelude.{◌≡◌};

use crate::{Awaited, Refusal};

impl Refusal {
    /// That this is awaited at the offset.
    pub fn new(at: usize, awaited: Awaited) -> Refusal
        ensures { result ≡ record { at = at; awaited = awaited } }
    {
        Refusal { at, awaited }
    }
}
