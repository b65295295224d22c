//! Numbers of 4 bytes, read into a row.
ghost use Rattle.std.specs.Prelude.{◌≡◌, ◌≤◌, ◌++◌, length, take};
ghost use Rattle.attributes.specs.Gathering.{or_invalid, with_numbers};
ghost use Rattle.attributes.specs.Meant.{numbers_of, reading_of};
ghost use Rattle.wire.specs.Bytes.{numbers};

use arrayvec::ArrayVec;
use fault::Fault;
use wire::{cut, u32_of};

/// Puts the numbers of the bytes behind the row; where there is no room for all of them, it takes the first that fit, and the value is wrong.
#[tactic(auto, using(crate::proofs::Numerals::numbering))]
pub fn push_numbers<const N: usize>(row: &mut ArrayVec<u32, N>, bytes: &[u8]) -> Result<(), Fault>
    requires { length (numbers_of row.old) ≤ N }
    ensures row { numbers_of row.new ≡ take N (numbers_of row.old ++ numbers bytes.now) }
    ensures within { length (numbers_of row.new) ≤ N }
    ensures numbers { reading_of (λ _. numbers_of row.new) result ≡ or_invalid (with_numbers N (numbers_of row.old) bytes.now) }
{
    let mut rest = bytes;
    while let Some((number, after)) = cut(rest, 4) {
        row.try_push(u32_of(number)).map_err(|_| Fault::Value)?;
        rest = after;
    }
    Ok(())
}
