//! Messages of every kind but UPDATEs.
ghost use Rattle.std.specs.Prelude.{◌≡◌, min, [], ◌∷◌, ◌++◌, IfOk};
ghost use Rattle.peer_messages.specs.Messages.{message_bytes, open_body, short_asn, size_bytes};

use kinds::MessageKind;
use script_words::Peer;
use std::alloc::{AllocError, Global};

/// What stands in the place of a network that does not fit in 2 bytes.
const SHORT_ASN: u16 = 23456;

/// A message of a kind.
#[tactic(auto, unfolding(crate::specs::Messages::message_bytes))]
pub fn message(heap: Global, kind: u8, body: &[u8]) -> Result<Vec<u8>, AllocError>
    ensures { IfOk result (λ v. v.items ≡ message_bytes kind body.now) }
{
    let mut bytes = Vec::new(heap);
    bytes.extend_from_slice(&[255; 16])?;
    bytes.extend_from_slice(&size(body.len().saturating_add(19)).to_be_bytes())?;
    bytes.extend_from_slice(&[kind])?;
    bytes.extend_from_slice(body)?;
    Ok(bytes)
}

/// A length in 16 bits, the largest where it does not fit.
pub fn size(length: usize) -> u16
    ensures { result ≡ min length 65535 }
{
    u16::try_from(length).unwrap_or(65535)
}

pub fn keepalive(heap: Global) -> Result<Vec<u8>, AllocError>
    ensures { IfOk result (λ v. v.items ≡ message_bytes 4 []) }
{
    message(heap, u8::from(MessageKind::Keepalive), &[])
}

pub fn notification(heap: Global, code: u8, subcode: u8) -> Result<Vec<u8>, AllocError>
    ensures { IfOk result (λ v. v.items ≡ message_bytes 3 (code ∷ subcode ∷ [])) }
{
    message(heap, u8::from(MessageKind::Notification), &[code, subcode])
}

/// The OPEN that a peer sends by its settings.
pub fn open(heap: Global, peer: Peer) -> Result<Vec<u8>, AllocError>
    ensures { IfOk result (λ v. v.items ≡ message_bytes 1 (open_body peer.asn peer.address.0)) }
{
    let body = open_body(heap, peer)?;
    message(heap, u8::from(MessageKind::Open), body.as_slice())
}

#[tactic(auto, unfolding(crate::specs::Messages::open_body))]
fn open_body(heap: Global, peer: Peer) -> Result<Vec<u8>, AllocError>
    ensures { IfOk result (λ v. v.items ≡ open_body peer.asn peer.address.0) }
{
    let mut body = Vec::new(heap);
    body.extend_from_slice(&[4])?;
    body.extend_from_slice(&short_asn(peer.asn).to_be_bytes())?;
    body.extend_from_slice(&[0, 90])?;
    body.extend_from_slice(&peer.address.0.to_be_bytes())?;
    body.extend_from_slice(&[8, 2, 6, 65, 4])?;
    body.extend_from_slice(&peer.asn.to_be_bytes())?;
    Ok(body)
}

/// The network in 2 bytes, or what stands in its place.
fn short_asn(asn: u32) -> u16
    ensures { result ≡ short_asn asn }
{
    u16::try_from(asn).unwrap_or(SHORT_ASN)
}
