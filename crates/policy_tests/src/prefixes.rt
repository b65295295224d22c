//! The numbers of prefixes, which are prefixes, and which hold which.
use crate::examples::prefix;
use example_words::there;
use prefix::{COUNT, Prefix};
use std::process::Abort;
use std::test::*;

fn has_number(rt: &impl Abort, address: [u8; 4], length: u8, number: u32) -> Result<(), Fail> {
    let given = prefix(address, length)?;
    assert_eq!(rt; given.number(), number);
    let found = there(Prefix::from_number(number))?;
    assert_eq!(rt; found.address(), given.address());
    assert_eq!(rt; found.length(), length);
    Ok(())
}

#[test]
fn numbers_below_128(rt: HostRuntime) -> Result<(), Fail> {
    has_number(&rt, [0, 0, 0, 0], 0, 0)?;
    has_number(&rt, [0, 0, 0, 0], 24, 24)?;
    has_number(&rt, [0, 0, 1, 0], 24, 25)?;
    has_number(&rt, [0, 0, 2, 0], 23, 26)?;
    has_number(&rt, [10, 0, 0, 0], 8, 1_310_726)?;
    has_number(&rt, [10, 1, 0, 0], 16, 1_311_245)?;
    has_number(&rt, [127, 255, 255, 0], 24, 16_777_215)
}

#[test]
fn numbers_from_128(rt: HostRuntime) -> Result<(), Fail> {
    has_number(&rt, [128, 0, 0, 0], 1, 16_777_216)?;
    has_number(&rt, [192, 168, 1, 0], 24, 25_251_860)?;
    has_number(&rt, [255, 255, 255, 0], 24, 33_554_430)
}

#[test]
fn no_number_behind_the_last(rt: HostRuntime) -> Result<(), Fail> {
    assert_eq!(rt; COUNT, 33_554_431);
    assert!(rt; Prefix::from_number(33_554_431).is_none());
    assert!(rt; Prefix::from_number(4_294_967_295).is_none());
    Ok(())
}

fn is_no_prefix(rt: &impl Abort, address: [u8; 4], length: u8) -> Result<(), Fail> {
    assert!(rt; Prefix::new(u32::from_be_bytes(address), length).is_none());
    Ok(())
}

#[test]
fn no_prefixes(rt: HostRuntime) -> Result<(), Fail> {
    is_no_prefix(&rt, [0, 0, 0, 0], 25)?;
    is_no_prefix(&rt, [0, 0, 0, 0], 255)?;
    is_no_prefix(&rt, [0, 0, 1, 0], 23)?;
    is_no_prefix(&rt, [128, 0, 0, 0], 0)?;
    is_no_prefix(&rt, [255, 255, 255, 255], 24)
}
