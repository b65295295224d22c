//! The route server: reads event frames from standard input, until it ends or a frame cannot be read, and writes frames to
//! peers to standard output. What is refused is told on standard error, a line each, with its number.
#![tactic(auto)]

use desk::Desk;
use frame::settings::Settings;
use house_parts::Inlet;
use intake::turns::Step;
use options::{Task, read_task, show_help};
use policy_tables::Policies;
use speaker::Speaker;
use std::io;
use std::io::Read;
use table::Table;
use writer::FrameWriter;

mod desk;
mod options;
mod reports;
mod writer;

fn main(rt: HostRuntime) -> io::Result<()> {
    match read_task(&rt)? {
        Some(Task::Serve { verbose }) => run(&rt, verbose),
        Some(Task::Help) => {
            show_help(&rt);
            Ok(())
        }
        None => {
            let _ = eprintln!(rt; "house: unknown argument; house --help shows what there is");
            Err(io::Error::from(io::ErrorKind::InvalidInput))
        }
    }
}

/// Waits for settings, and serves under them.
fn run(rt: &HostRuntime, verbose: bool) -> io::Result<()> {
    let mut inlet = Inlet::new(rt, rt.stdin());
    let Some(settings) = await_settings(&mut inlet)? else {
        return Ok(());
    };
    let heap = rt.alloc();
    let table = Table::new(heap)?;
    let policies = Policies::new(heap)?;
    let spare = Policies::new(heap)?;
    let output = FrameWriter::new(heap, rt.stdout())?;
    let Some(speaker) = Speaker::new(settings, table, policies, spare, output) else {
        return Ok(());
    };
    Desk::new(rt, settings, verbose, speaker).serve(&mut inlet)
}

/// Passes over frames until settings come; nothing where none come.
fn await_settings<R: Read + Drop>(inlet: &mut Inlet<'_, R>) -> io::Result<Option<Settings>> {
    for _ in 0..u64::MAX {
        let is_ended = match inlet.next() {
            Step::Settings => return Ok(inlet.settings()),
            Step::Event { .. } | Step::Refused { .. } => false,
            Step::More => !inlet.fill()?,
            Step::Unreadable { .. } => true,
        };
        if is_ended {
            break;
        }
    }
    Ok(None)
}
