//! What one word says.
ghost use Rattle.std.specs.Prelude.{◌≡◌, ◌<◌, Some, None, MatchResult};
ghost use Rattle.script_words.specs.Hex.{byte_of, digit_of};

use crate::Problem;

/// A number of 32 bits.
pub fn read_number(word: &str) -> Result<u32, Problem> {
    word.parse::<u32>().map_err(|_| Problem::NoNumber)
}

/// A byte in two hexadecimal digits.
pub fn read_byte(word: &str) -> Result<u8, Problem>
    ensures { MatchResult result (λ v. byte_of word.now ≡ Some v) (λ _. byte_of word.now ≡ None) }
{
    match word.as_bytes() {
        [high, low] => Ok(read_digit(*high)? * 16 + read_digit(*low)?),
        _ => Err(Problem::NoByte),
    }
}

/// The value of a hexadecimal digit.
fn read_digit(digit: u8) -> Result<u8, Problem>
    ensures { MatchResult result (λ v. (digit_of digit ≡ Some v) × (v < 16)) (λ _. digit_of digit ≡ None) }
{
    match digit {
        b'0'..=b'9' => Ok(digit - b'0'),
        b'a'..=b'f' => Ok(digit - b'a' + 10),
        _ => Err(Problem::NoByte),
    }
}
