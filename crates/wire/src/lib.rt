//! Numbers, pieces and prefixes in bytes that are lent, and the numbers that messages have for kinds and flags.
#![tactic(auto)]

mod bytes;
pub mod flags;
mod kinds;
mod nlri;

pub use bytes::{byte_at, cut, first, skip, u16_of, u32_of};
pub use kinds::{Kind, UnknownKind};
pub use nlri::{Check, Prefixes, check_prefixes};
