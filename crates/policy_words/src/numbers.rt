//! Decimal numbers of 32 bits.
ghost use Rattle.std.specs.Prelude.{◌≡◌, ◌+◌, ◌-◌, ◌*◌, ◌^◌, true, if◌then◌else◌, Some, None, nat_lt};
ghost use Rattle.std.specs.Char.{is_ascii_digit};
ghost use Rattle.policy_words.specs.Meant.{lead_of};
ghost use Rattle.policy_words.specs.Words.{leading, number_of};

/// The number of which the word is the decimal digits, if it is one of 32 bits.
pub fn number_of(word: &[u8]) -> Option<u32>
    ensures { result ≡ number_of word.now }
{
    match leading(word)? {
        (number, []) => Some(number),
        _ => None,
    }
}

/// The number in front, and the bytes behind its digits.
#[tactic(auto, using(crate::proofs::Digits::leading_more, crate::proofs::Digits::leading_none))]
pub(crate) fn leading(bytes: &[u8]) -> Option<(u32, &[u8])>
    ensures { lead_of result ≡ leading bytes.now }
{
    if !bytes.first()?.is_ascii_digit() {
        return None;
    }
    let mut number = 0;
    let mut left = bytes;
    while let Some((digit, behind)) = left.split_first() {
        if !digit.is_ascii_digit() {
            break;
        }
        number = with_digit(number, *digit)?;
        left = behind;
    }
    Some((number, left))
}

/// The number with one digit more, if it has 32 bits.
fn with_digit(number: u32, digit: u8) -> Option<u32>
    requires { is_ascii_digit digit ≡ true }
    ensures { result ≡ (if nat_lt (number * 10 + (digit - 48)) (2 ^ 32) then Some (number * 10 + (digit - 48)) else None) }
{
    number.checked_mul(10)?.checked_add(u32::from(digit - b'0'))
}
