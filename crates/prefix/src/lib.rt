//! An IPv4 prefix of at most 24 bits.
#![tactic(auto)]

ghost use Rattle.std.specs.Prelude.{◌≡◌, true};
ghost use Rattle.prefix.specs.Prefix.{is_prefix};

mod equality;
mod methods;
mod numbers;
mod printing;

pub use methods::prefix_laws;
pub use numbers::{COUNT, number_laws};

/// The addresses whose first `length` bits are those of `address`; the bits behind are 0.
#[derive(Clone, Copy, Eq)]
pub struct Prefix {
    address: u32,
    length: u8,
    ghost valid: { is_prefix address length ≡ true },
}
