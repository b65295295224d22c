//! What stands between tokens: blanks, ends of lines, comments.
ghost use Rattle.std.specs.Prelude.{◌≡◌, ◌<◌, ℕ, length, drop, MatchOption, slice_index};
ghost use Rattle.text_tokens.specs.Meant.{Begun, mode_of};
ghost use Rattle.text_tokens.specs.Tokens.{Begins, Between, Source, after, class_of, scan, whole};

use crate::Class;
use crate::classes::class_of;

/// What the bytes since the last token have begun, with whether no token stands on the line yet.
#[derive(Clone, Copy)]
pub(crate) enum Gap {
    Blank { fresh: bool },
    Comment { fresh: bool },
}

impl Gap {
    fn fresh(self) -> bool
        ensures { result ≡ elim self [ Gap.Blank f ↦ f | Gap.Comment f ↦ f ] }
    {
        match self {
            Gap::Blank { fresh } | Gap::Comment { fresh } => fresh,
        }
    }

    /// The gap with one byte more; none where a token begins with it.
    fn with(self, byte: u8) -> Option<Gap>
        ensures { MatchOption result (Begun self (class_of byte)) (λ gap. (n : ℕ) (rest : Source) → (whole (mode_of self) n (class_of byte) rest ≡ rest) × (after (mode_of self) n byte (class_of byte) ≡ mode_of gap)) }
    {
        match self {
            Gap::Blank { fresh } => match class_of(byte) {
                Class::Blank => Some(self),
                Class::LineEnd => Some(Gap::Blank { fresh: true }),
                Class::Hash => Some(Gap::Comment { fresh }),
                Class::Sign(_) | Class::Letter => None,
            },
            Gap::Comment { .. } => match class_of(byte) {
                Class::LineEnd => Some(Gap::Blank { fresh: true }),
                _ => Some(self),
            },
        }
    }
}

/// Where the next token begins, or the text ends, and whether no token stands on that line before it.
#[tactic(auto, using(crate::proofs::Scanning::scan_more, crate::proofs::Scanning::scan_none))]
pub(crate) fn skip(text: &[u8], start: usize, fresh: bool) -> (usize, bool)
    ensures same { scan (Between fresh) start (drop start text.now) ≡ scan (Between result.1) result.0 (drop result.0 text.now) }
    ensures begins { result.0 < length text.now → Begins (class_of (slice_index text.now result.0)) }
{
    let mut gap = Gap::Blank { fresh };
    // by places, since the place is the answer
    for at in start..text.len() {
        let Some(longer) = gap.with(text[at]) else {
            return (at, gap.fresh());
        };
        gap = longer;
    }
    (start.max(text.len()), gap.fresh())
}
