//! Values in bytes, one behind the other.
ghost use Rattle.std.specs.Prelude.{◌<◌, length, IfSome};
ghost use Rattle.std.specs.Iterator.{at_most};

use script_words::{Address, Peer, Prefix};
use std::fmt;
use std::marker::PhantomData;

/// What can be cut off in front of bytes.
pub trait Cut<'a>: Sized {
    /// The value that the bytes begin with, and those behind it; none where they begin with no such value.
    fn cut(bytes: &'a [u8]) -> Option<(Self, &'a [u8])>
        ensures { IfSome result (λ p. length p.1.now < length bytes.now) };
}

impl<'a> Cut<'a> for u8 {
    fn cut(bytes: &'a [u8]) -> Option<(u8, &'a [u8])> {
        let (byte, rest) = bytes.split_first()?;
        Some((*byte, rest))
    }
}

impl<'a> Cut<'a> for u16 {
    fn cut(bytes: &'a [u8]) -> Option<(u16, &'a [u8])> {
        let (number, rest) = bytes.split_first_chunk::<2>()?;
        Some((u16::from_be_bytes(*number), rest))
    }
}

impl<'a> Cut<'a> for u32 {
    fn cut(bytes: &'a [u8]) -> Option<(u32, &'a [u8])> {
        let (number, rest) = bytes.split_first_chunk::<4>()?;
        Some((u32::from_be_bytes(*number), rest))
    }
}

impl<'a> Cut<'a> for Address {
    fn cut(bytes: &'a [u8]) -> Option<(Address, &'a [u8])> {
        let (number, rest) = u32::cut(bytes)?;
        Some((Address(number), rest))
    }
}

impl<'a> Cut<'a> for Peer {
    fn cut(bytes: &'a [u8]) -> Option<(Peer, &'a [u8])> {
        let (asn, rest) = u32::cut(bytes)?;
        let (address, rest) = Address::cut(rest)?;
        Some((Peer { asn, address }, rest))
    }
}

/// A length, and as many bytes of the address as its bits need.
impl<'a> Cut<'a> for Prefix {
    fn cut(bytes: &'a [u8]) -> Option<(Prefix, &'a [u8])> {
        let (length, rest) = u8::cut(bytes)?;
        if length > 32 {
            return None;
        }
        let (written, rest) = rest.split_at_checked((usize::from(length) + 7) / 8)?;
        let mut address = [0u8; 4];
        for (byte, given) in address.iter_mut().zip(written) {
            *byte = *given;
        }
        let address = Address(u32::from_be_bytes(address));
        Some((Prefix { address, length }, rest))
    }
}

/// A part that has its length in front, in one byte or in two, and what is behind it.
pub fn cut_sized<'a, N: Cut<'a> + Into<usize>>(bytes: &'a [u8]) -> Option<(&'a [u8], &'a [u8])>
    ensures { IfSome result (λ p. length p.1.now < length bytes.now) }
{
    let (size, rest) = N::cut(bytes)?;
    rest.split_at_checked(size.into())
}

/// What is left of values that stand one behind the other.
#[derive(Clone, Copy)]
pub struct Row<'a, T> {
    rest: &'a [u8],
    values: PhantomData<T>,
}

impl<'a, T> Row<'a, T> {
    pub fn of(bytes: &'a [u8]) -> Row<'a, T> {
        Row {
            rest: bytes,
            values: PhantomData,
        }
    }

    pub fn is_empty(&self) -> bool {
        self.rest.is_empty()
    }
}

/// Where what is left begins with no such value it gives none, and ends.
impl<'a, T: Cut<'a>> Iterator for Row<'a, T> {
    type Item = Option<T>;

    ghost remaining = { λ s. at_most (length s.rest.now) };

    fn next(&mut self) -> Option<Option<T>> {
        if self.rest.is_empty() {
            return None;
        }
        match T::cut(self.rest) {
            Some((value, rest)) => {
                self.rest = rest;
                Some(Some(value))
            }
            None => {
                self.rest = &[];
                Some(None)
            }
        }
    }
}

/// The values, each behind a space.
impl<'a, T: Cut<'a> + fmt::Display + Copy> fmt::Display for Row<'a, T> {
    fn fmt<W: fmt::Write>(&self, f: &mut fmt::Formatter<W>) -> fmt::Result {
        for value in *self {
            if let Some(value) = value {
                write!(f, " {value}")?;
            }
        }
        Ok(())
    }
}

/// Bytes in hexadecimal digits.
#[derive(Clone, Copy)]
pub struct Bytes<'a>(pub &'a [u8]);

impl fmt::Display for Bytes<'_> {
    fn fmt<W: fmt::Write>(&self, f: &mut fmt::Formatter<W>) -> fmt::Result {
        write!(f, "bytes")?;
        for byte in self.0 {
            write!(f, " {byte:02x}")?;
        }
        Ok(())
    }
}
