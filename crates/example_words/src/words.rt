//! Reading words and numbers.
use anyhow::Context;
use std::alloc::Global;
use std::iter;
use std::str::SplitWhitespace;

pub fn next<'a>(words: &mut SplitWhitespace<'a>) -> anyhow::Result<&'a str> {
    words.next().context("a word is missing")
}

pub fn byte(words: &mut SplitWhitespace<'_>) -> anyhow::Result<u8> {
    Ok(next(words)?.parse::<u8>()?)
}

pub fn number(words: &mut SplitWhitespace<'_>) -> anyhow::Result<u32> {
    Ok(next(words)?.parse::<u32>()?)
}

/// The numbers of the next words, of up to 64: `7*31` is 31 times 7, and `1..9` is 1 to 9.
pub fn numbers(heap: Global, words: &mut SplitWhitespace<'_>) -> anyhow::Result<Vec<u32>> {
    let mut numbers = Vec::new(heap);
    for word in words.take(64) {
        push_word(&mut numbers, word)?;
    }
    Ok(numbers)
}

fn push_word(row: &mut Vec<u32>, word: &str) -> anyhow::Result<()> {
    if let Some((number, times)) = word.split_once('*') {
        let number = number.parse::<u32>()?;
        row.extend(iter::repeat_n(number, usize::from(times.parse::<u8>()?)))?;
    } else if let Some((first, last)) = word.split_once("..") {
        let (first, last) = (first.parse::<u8>()?, last.parse::<u8>()?);
        row.extend((first..=last).map(u32::from))?;
    } else {
        row.push(word.parse::<u32>()?)?;
    }
    Ok(())
}

/// An address and a length, as `10.0.0.0/8`.
pub fn dotted(word: &str) -> anyhow::Result<(u32, u8)> {
    let (address, length) = word.split_once('/').context("a length is missing")?;
    let mut bits = 0u32;
    for part in address.split('.') {
        bits = bits
            .wrapping_mul(256)
            .wrapping_add(u32::from(part.parse::<u8>()?));
    }
    Ok((bits, length.parse::<u8>()?))
}
