//! What is true of policies that are printed and of texts that are read.
#![tactic(auto)]

ghost use Rattle.policy_print_laws.specs.RoundTrip.{RoundTrip};
ghost use Rattle.policy_print_laws.specs.declared.Unprinted.TheVariants.{NoMemory, Refused};
ghost use Rattle.std.specs.Prelude.{◌≡◌};

use policy_clauses::Refusal;
use std::alloc::AllocError;

mod reprints;

pub use reprints::reprint;

/// Why a text was not printed anew.
#[derive(Clone, Copy)]
pub enum Unprinted {
    /// It cannot be read.
    Refused(Refusal),
    NoMemory,
}

impl From<Refusal> for Unprinted {
    ghost from_gives = { λ refusal why. why ≡ Refused refusal };

    fn from(refusal: Refusal) -> Unprinted {
        Unprinted::Refused(refusal)
    }
}

impl From<AllocError> for Unprinted {
    ghost from_gives = { λ _ why. why ≡ NoMemory };

    fn from(_error: AllocError) -> Unprinted {
        Unprinted::NoMemory
    }
}

/// Reading what was printed gives the same policies, and what is read can be printed.
pub fn round_trip()
    ensures { RoundTrip }
{}
