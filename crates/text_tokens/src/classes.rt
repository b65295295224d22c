//! What each byte is.
ghost use Rattle.std.specs.Prelude.{◌≡◌};
ghost use Rattle.text_tokens.specs.Tokens.{class_of};

use crate::{Class, Sign};

pub(crate) fn class_of(byte: u8) -> Class
    ensures { result ≡ class_of byte }
{
    match byte {
        b' ' | b'\t' | b'\r' => Class::Blank,
        b'\n' => Class::LineEnd,
        b'#' => Class::Hash,
        b'{' => Class::Sign(Sign::Open),
        b'}' => Class::Sign(Sign::Close),
        b'=' => Class::Sign(Sign::Equals),
        b',' => Class::Sign(Sign::Comma),
        _ => Class::Letter,
    }
}
