//! The parts of an UPDATE.
ghost use Rattle.std.specs.Prelude.{◌≡◌, ◌<◌};
ghost use Rattle.update.specs.Sections.{announced_in, attributes_in, attributes_length, sections_end, withdrawn_in, withdrawn_length};

use wire::{first, skip, u16_of};

#[derive(Clone, Copy)]
pub struct Sections<'a> {
    pub withdrawn: &'a [u8],
    pub attributes: &'a [u8],
    pub announced: &'a [u8],
}

/// The parts of a message that is an UPDATE; what is not there is empty.
#[tactic(auto, unfolding(crate::specs::Sections::withdrawn_in, crate::specs::Sections::attributes_in, crate::specs::Sections::announced_in))]
pub fn split_update(message: &[u8]) -> Sections<'_>
    ensures withdrawn { result.withdrawn.now ≡ withdrawn_in message.now }
    ensures attributes { result.attributes.now ≡ attributes_in message.now }
    ensures announced { result.announced.now ≡ announced_in message.now }
{
    let withdrawn = withdrawn_length(message);
    let attributes = attributes_length(message);
    Sections {
        withdrawn: first(skip(message, 21), withdrawn),
        attributes: first(skip(message, 23 + withdrawn), attributes),
        announced: skip(message, sections_end(message)),
    }
}

/// Where the announced prefixes begin, if the message is so long.
#[tactic(auto, unfolding(crate::specs::Sections::sections_end))]
pub fn sections_end(message: &[u8]) -> usize
    ensures { result ≡ sections_end message.now }
{
    23 + withdrawn_length(message) + attributes_length(message)
}

fn withdrawn_length(message: &[u8]) -> usize
    ensures value { result ≡ withdrawn_length message.now }
    ensures bound { result < 65536 }
{
    usize::from(u16_of(skip(message, 19)))
}

fn attributes_length(message: &[u8]) -> usize
    ensures value { result ≡ attributes_length message.now }
    ensures bound { result < 65536 }
{
    usize::from(u16_of(skip(message, 21 + withdrawn_length(message))))
}
