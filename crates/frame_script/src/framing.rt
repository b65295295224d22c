//! Event frames in bytes.
ghost use Rattle.std.specs.Prelude.{◌≡◌, ◌++◌, OnOk};
ghost use Rattle.frame_script.specs.Framing.{connection_frame, message_frame, party_bytes, text_frame};
ghost use Rattle.kinds.specs.Numbers.{connection_number};

use kinds::{Connection, FrameKind};
use script_words::{Peer, Problem};
use std::alloc::AllocError;

/// Bytes that come from a peer, in a frame.
pub fn put_message(out: &mut Vec<u8>, peer: u8, message: &[u8]) -> Result<(), Problem>
    ensures { OnOk result (out.new.items ≡ out.old.items ++ message_frame peer message.now) }
{
    let size = u16::try_from(message.len()).map_err(|_| Problem::TooLong)?;
    out.extend_from_slice(&[u8::from(FrameKind::Message), peer])?;
    out.extend_from_slice(&size.to_be_bytes())?;
    out.extend_from_slice(message)?;
    Ok(())
}

/// A connection that comes up or breaks, in a frame.
pub fn put_connection(out: &mut Vec<u8>, peer: u8, connection: Connection) -> Result<(), AllocError>
    ensures { OnOk result (out.new.items ≡ out.old.items ++ connection_frame peer (connection_number connection)) }
{
    out.extend_from_slice(&[u8::from(FrameKind::Connection), peer, u8::from(connection)])
}

/// A policy text in a frame.
pub fn put_text(out: &mut Vec<u8>, text: &[u8]) -> Result<(), Problem>
    ensures { OnOk result (out.new.items ≡ out.old.items ++ text_frame text.now) }
{
    let size = u32::try_from(text.len()).map_err(|_| Problem::TooLong)?;
    out.extend_from_slice(&[u8::from(FrameKind::PolicyText)])?;
    out.extend_from_slice(&size.to_be_bytes())?;
    out.extend_from_slice(text)?;
    Ok(())
}

/// Settings in a frame: the own network and address, and the peers.
pub fn put_settings(out: &mut Vec<u8>, own: Peer, peers: &[Peer]) -> Result<(), Problem> {
    let count = u8::try_from(peers.len()).map_err(|_| Problem::TooLong)?;
    out.extend_from_slice(&[u8::from(FrameKind::Settings), count])?;
    put_party(out, own)?;
    for peer in peers {
        put_party(out, *peer)?;
    }
    Ok(())
}

/// A network and an address.
fn put_party(out: &mut Vec<u8>, party: Peer) -> Result<(), AllocError>
    ensures { OnOk result (out.new.items ≡ out.old.items ++ party_bytes party.asn party.address.0) }
{
    out.extend_from_slice(&party.asn.to_be_bytes())?;
    out.extend_from_slice(&party.address.0.to_be_bytes())
}
