//! Words as texts.
ghost use Rattle.std.specs.Prelude.{◌≡◌, if◌then◌else◌, Some, None};
ghost use Rattle.policy_words.specs.Words.{is_ascii};
ghost use Rattle.std.specs.Option.{option_map};

use std::str::from_utf8;

/// The word as a text, if all its bytes are below 128.
#[tactic(auto, using(crate::proofs::Ascii::text))]
pub fn text_of(word: &[u8]) -> Option<&str>
    ensures { option_map (λ x. x.now) result ≡ (if is_ascii word.now then Some word.now else None) }
{
    if is_ascii(word) {
        from_utf8(word).ok()
    } else {
        None
    }
}

/// Whether all bytes are below 128. A word has few bytes, so that they are asked one by one.
fn is_ascii(word: &[u8]) -> bool
    ensures { result ≡ is_ascii word.now }
{
    word.iter().all(|byte| *byte < 128)
}
