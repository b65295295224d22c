//! Prefixes, as 10.0.0.0/8.
ghost use Rattle.std.specs.Prelude.{◌≡◌};
ghost use Rattle.policy_words.specs.Meant.{lead_of};
ghost use Rattle.policy_words.specs.Words.{address_of, checked, octet, prefix_of};
ghost use Rattle.prefix.specs.Meant.{meant};
ghost use Rattle.std.specs.Option.{option_map};

use crate::numbers::{leading, number_of};
use prefix::Prefix;

/// The prefix that is written so: four numbers below 256 with dots between them, a slash, and the length.
pub fn prefix_of(word: &[u8]) -> Option<Prefix>
    ensures { option_map meant result ≡ prefix_of word.now }
{
    let (a, rest) = octet(word, b'.')?;
    let (b, rest) = octet(rest, b'.')?;
    let (c, rest) = octet(rest, b'.')?;
    let (d, rest) = octet(rest, b'/')?;
    let length = number_of(rest)?;
    prefix_from(address_of(a, b, c, d), length)
}

fn prefix_from(address: u32, length: u32) -> Option<Prefix>
    ensures { option_map meant result ≡ checked address length }
{
    Prefix::new(address, u8::try_from(length).ok()?)
}

fn address_of(a: u8, b: u8, c: u8, d: u8) -> u32
    ensures { result ≡ address_of a b c d }
{
    ((u32::from(a) * 256 + u32::from(b)) * 256 + u32::from(c)) * 256 + u32::from(d)
}

/// A number below 256, and the bytes behind the sign that follows it.
fn octet(bytes: &[u8], sign: u8) -> Option<(u8, &[u8])>
    ensures { lead_of result ≡ octet sign bytes.now }
{
    let (number, rest) = leading(bytes)?;
    let (first, behind) = rest.split_first()?;
    if *first != sign {
        return None;
    }
    Some((u8::try_from(number).ok()?, behind))
}
