//! The route server: reads framed events from standard input, until it ends or a frame cannot be read. It takes settings
//! and relays nothing yet. A fault is told on standard error, in a line with its number.
#![tactic(auto)]

use house_parts::Inlet;
use intake::turns::Step;
use std::io;

fn main(rt: HostRuntime) -> io::Result<()> {
    let mut inlet = Inlet::new(&rt, rt.stdin());
    for _ in 0..u64::MAX {
        let is_ended = match inlet.next() {
            Step::Settings | Step::Event { .. } | Step::Refused { .. } => false,
            Step::More => !inlet.fill()?,
            Step::Unreadable { .. } => true,
        };
        if is_ended {
            break;
        }
    }
    Ok(())
}
