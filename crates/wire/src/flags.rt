//! Flags of attributes, as bits.

pub const OPTIONAL: u8 = 0x80;

pub const TRANSITIVE: u8 = 0x40;

pub const EXTENDED_LENGTH: u8 = 0x10;
