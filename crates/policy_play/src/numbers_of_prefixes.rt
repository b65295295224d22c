//! Printing prefixes and their numbers.
use crate::bench::show;
use prefix::Prefix;
use std::io;

/// Prints the number of the prefix, and the prefix that has the number.
pub fn show_number(rt: &HostRuntime, prefix: Prefix) -> io::Result<()> {
    let number = prefix.number();
    print!(rt; " {number},")?;
    show_prefix(rt, Prefix::from_number(number))
}

pub fn show_prefix(rt: &HostRuntime, prefix: Option<Prefix>) -> io::Result<()> {
    match prefix {
        Some(prefix) => show(rt, prefix),
        None => show(rt, "none"),
    }
}
