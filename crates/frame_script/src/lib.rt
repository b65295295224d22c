//! Scripts of events: lines in words become event frames in bytes.
//!
//! A line is one of these, and what stands behind `#` is not read:
//!
//!     settings 5 10.0.0.5 7@10.0.0.1 8@10.0.0.2
//!     up 1
//!     down 1
//!     tick
//!     ticks 30
//!     open 1
//!     keepalive 1
//!     notification 1 6 2
//!     announce 1 10.0.0.0/8 10.1.0.0/16 by 7 9 med 3 communities 7 70 withdraw 10.2.0.0/16
//!     withdraw 1 10.0.0.0/8
//!     bytes 1 ff ff
//!     raw 01 02
//!     flip 18
//!     cut 20
//!
//! Peers have the numbers from 0 in the first settings with at most 64. Of `announce` the parts behind the prefixes may
//! be left out; without `by` there is no path attribute. `flip` turns all bits of a byte of the next message, counted
//! from 0, and `cut` keeps only so many of its bytes. Lines from `text` to `end` are a policy text.
#![tactic(auto)]

mod damage;
mod framing;
mod parts;
mod writer;

pub use writer::{Refused, frames};
