//! The kinds of frames, and how many bytes a frame has.
ghost use Rattle.std.specs.Prelude.{◌≡◌, length, ok_or, MatchResult, Some};
ghost use Rattle.frame.specs.Size.{begins, framed, kind_of, size_of};
ghost use Rattle.frame.specs.Unread.{unread_by};
ghost use Rattle.frame.specs.declared.event.Defect.TheVariants.{UnknownKind};

use crate::event::{Defect, Refusal, Unread};
use wire::{first, skip, u16_of, u32_of};

/// What a frame is, by its first byte.
#[derive(Clone, Copy, Debug, PartialEq, Eq)]
pub enum Kind {
    Message,
    Session,
    Tick,
    PolicyText,
    Settings,
}

impl TryFrom<u8> for Kind {
    type Error = Defect;

    ghost try_from_gives = { λ byte result. result ≡ ok_or (kind_of byte) UnknownKind };

    fn try_from(byte: u8) -> Result<Kind, Defect> {
        match byte {
            1 => Ok(Kind::Message),
            2 => Ok(Kind::Session),
            3 => Ok(Kind::Tick),
            4 => Ok(Kind::PolicyText),
            5 => Ok(Kind::Settings),
            _ => Err(Defect::UnknownKind),
        }
    }
}

impl Kind {
    /// How many bytes a frame of this kind has, as soon as its first bytes tell.
    #[tactic(auto, using(crate::proofs::Numbers::numbers_behind))]
    pub fn size_of(self, bytes: &[u8]) -> Option<usize>
        ensures { result ≡ size_of self bytes.now }
    {
        match self {
            Kind::Message if bytes.len() >= 4 => Some(4 + usize::from(u16_of(skip(bytes, 2)))),
            Kind::Session => Some(3),
            Kind::Tick => Some(1),
            Kind::PolicyText if bytes.len() >= 5 => Some(5 + u32_of(skip(bytes, 1)) as usize),
            Kind::Settings if bytes.len() >= 2 => Some(10 + 8 * usize::from(bytes[1])),
            Kind::Message | Kind::PolicyText | Kind::Settings => None,
        }
    }
}

/// The longest frame that is read: a policy text of 65,536 bytes, and the 5 in front of it.
pub const LARGEST_FRAME: usize = 5 + 65_536;

/// A frame with all its bytes, which are as many as its first ones say.
#[derive(Clone, Copy)]
pub struct Frame<'a> {
    pub kind: Kind,
    pub bytes: &'a [u8],
    ghost whole: { size_of kind bytes.now ≡ Some (length bytes.now) },
}

/// Cuts off the first frame; one that is too long is refused for that.
pub fn first_frame(bytes: &[u8], too_long: Refusal) -> Result<Frame<'_>, Unread>
    ensures { MatchResult result (λ f. begins bytes.now ≡ framed f.kind f.bytes.now) (λ u. unread_by too_long (begins bytes.now) ≡ Some u) }
{
    let byte = bytes.first().ok_or(Unread::More)?;
    let kind = Kind::try_from(*byte)?;
    let size = kind.size_of(bytes).ok_or(Unread::More)?;
    if size > LARGEST_FRAME {
        return Err(Unread::Refused {
            refusal: too_long,
            size,
        });
    }
    if bytes.len() < size {
        return Err(Unread::More);
    }
    Ok(Frame {
        kind,
        bytes: first(bytes, size),
    })
}
