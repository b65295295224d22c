//! Writing BGP messages.
#![tactic(auto)]

mod parts;
mod putting;
mod writing;

pub use writing::{
    write_announcement, write_keepalive, write_notification, write_open, write_withdrawal,
};

/// A lent buffer that is written from its front, up to `end` so far.
#[derive(Drop)]
struct Writer<'a> {
    buffer: &'a mut [u8],
    end: usize,
}
