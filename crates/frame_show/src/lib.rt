//! Frames in words, one to a line.
//!
//! What the server sends:
//!
//!     to 1: OPEN 5 hold 90 10.0.0.5
//!     to 1: KEEPALIVE
//!     to 2: UPDATE 10.0.0.0/8 by 5 7 9 med 0 communities 7
//!     to 2: UPDATE withdraw 10.0.0.0/8
//!     to 1: NOTIFICATION 6 13
//!     close 1
//!
//! Event frames are shown too, with `from` in place of `to`, and else in the words of a script. A message that cannot be
//! read is shown in bytes, `to 1: bytes ff ff`, and so is all that stands behind the last frame that can be read. The next
//! hop and the origin of an UPDATE are not shown.
#![tactic(auto)]

mod frame;
mod message;
mod rows;
mod update;

use frame::Frame;
use rows::Row;
use std::alloc::AllocError;
use std::fmt::Write;

/// Shows all frames, one to a line.
pub fn show(out: &mut String, bytes: &[u8]) -> Result<(), AllocError> {
    for frame in Row::<Frame<'_>>::of(bytes).flatten() {
        writeln!(out, "{frame}")?;
    }
    Ok(())
}
