//! Addresses, prefixes and peers, as they are written.
use crate::{Problem, read_number};
use std::fmt;
use std::str::FromStr;

/// An address of 32 bits, written in four numbers.
#[derive(Clone, Copy, Debug, PartialEq, Eq)]
pub struct Address(pub u32);

/// A prefix as it is written, with up to 32 bits, and whatever stands behind them.
#[derive(Clone, Copy, Debug, PartialEq, Eq)]
pub struct Prefix {
    pub address: Address,
    pub length: u8,
}

/// A peer as the settings have it, written as 7@10.0.0.1.
#[derive(Clone, Copy, Debug, PartialEq, Eq)]
pub struct Peer {
    pub asn: u32,
    pub address: Address,
}

impl FromStr for Address {
    type Err = Problem;

    fn from_str(word: &str) -> Result<Address, Problem> {
        let mut bytes = [0u8; 4];
        let mut parts = word.split('.');
        for byte in bytes.iter_mut() {
            let part = parts.next().ok_or(Problem::NoAddress)?;
            *byte = part.parse::<u8>().map_err(|_| Problem::NoAddress)?;
        }
        match parts.next() {
            Some(_) => Err(Problem::NoAddress),
            None => Ok(Address(u32::from_be_bytes(bytes))),
        }
    }
}

impl FromStr for Prefix {
    type Err = Problem;

    fn from_str(word: &str) -> Result<Prefix, Problem> {
        let (address, length) = word.split_once('/').ok_or(Problem::NoPrefix)?;
        let length = length.parse::<u8>().map_err(|_| Problem::NoPrefix)?;
        if length > 32 {
            return Err(Problem::NoPrefix);
        }
        let address = address.parse::<Address>()?;
        Ok(Prefix { address, length })
    }
}

impl FromStr for Peer {
    type Err = Problem;

    fn from_str(word: &str) -> Result<Peer, Problem> {
        let (asn, address) = word.split_once('@').ok_or(Problem::NoPeer)?;
        let asn = read_number(asn)?;
        let address = address.parse::<Address>()?;
        Ok(Peer { asn, address })
    }
}

impl fmt::Display for Address {
    fn fmt<W: fmt::Write>(&self, f: &mut fmt::Formatter<W>) -> fmt::Result {
        let [a, b, c, d] = self.0.to_be_bytes();
        write!(f, "{a}.{b}.{c}.{d}")
    }
}

impl fmt::Display for Prefix {
    fn fmt<W: fmt::Write>(&self, f: &mut fmt::Formatter<W>) -> fmt::Result {
        let Prefix { address, length } = *self;
        write!(f, "{address}/{length}")
    }
}

impl fmt::Display for Peer {
    fn fmt<W: fmt::Write>(&self, f: &mut fmt::Formatter<W>) -> fmt::Result {
        let Peer { asn, address } = *self;
        write!(f, "{asn}@{address}")
    }
}
