//! Reading an UPDATE.
ghost use Rattle.std.specs.Prelude.{◌≡◌, ok_or};
ghost use Rattle.attributes.specs.Meant.{peer_of, reading_of};
ghost use Rattle.update.specs.Finding.{announced as announced_by, both_checked, content_from};
ghost use Rattle.update.specs.Meant.{content_meant, found_of};
ghost use Rattle.update.specs.Update.{read_update};
ghost use Rattle.wire.specs.Nlri.{checked};

use crate::finding::{Found, read_attributes};
use crate::layout::{sections_end, split_update};
use crate::{Attributes, Content};
use attributes::Peer;
use fault::Fault;
use wire::{Check, check_prefixes};

/// What an UPDATE says of its prefixes; what runs over its length is a fault that ends the reading.
pub fn read_update(message: &[u8], peer: Peer) -> Result<Content, Fault>
    ensures { reading_of content_meant result ≡ read_update (peer_of peer) message.now }
{
    if message.len() < sections_end(message) {
        return Err(Fault::Overrun);
    }
    let parts = split_update(message);
    let invalid = holds_others(parts.withdrawn, parts.announced)?;
    let found = read_attributes(parts.attributes, peer)?;
    Ok(content(found, invalid, !parts.announced.is_empty()))
}

/// Whether something in the parts is no prefix; a fault where they run over.
fn holds_others(withdrawn: &[u8], announced: &[u8]) -> Result<bool, Fault>
    ensures { result ≡ ok_or (both_checked (checked withdrawn.now) (checked announced.now)) Fault.Overrun }
{
    match (check_prefixes(withdrawn), check_prefixes(announced)) {
        (Check::Overrun, _) | (_, Check::Overrun) => Err(Fault::Overrun),
        (Check::Valid, Check::Valid) => Ok(false),
        _ => Ok(true),
    }
}

/// What is said of the prefixes, from what was found among the attributes.
#[tactic(auto, using(crate::proofs::Parts::below))]
fn content(mut found: Found, invalid: bool, announces: bool) -> Content
    ensures { content_meant result ≡ content_from (found_of found) invalid announces }
{
    if invalid {
        found.note(Fault::Value);
    }
    match found.fault {
        Some(fault) => Content::Faulty(fault),
        None if announces => announced(found),
        None => Content::Withdraws,
    }
}

/// The attributes of what is announced, if none is missing.
fn announced(found: Found) -> Content
    ensures { content_meant result ≡ announced_by (found_of found) (found_of found).path }
{
    match found.path {
        Some(path) if found.has_next_hop => Content::Announces(Attributes {
            path,
            med: found.med,
            communities: found.communities,
        }),
        _ => Content::Faulty(Fault::Missing),
    }
}
