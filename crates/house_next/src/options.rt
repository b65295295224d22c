//! The program's arguments.
use std::{env, io};

/// What the program is asked to do.
#[derive(Clone, Copy)]
pub enum Task {
    /// To serve; with a line for each session that comes up or goes down, or without.
    Serve { verbose: bool },
    /// To say what it is.
    Help,
}

/// What the arguments ask for; none where there is one that it doesn't know.
pub fn read_task(rt: &HostRuntime) -> io::Result<Option<Task>> {
    let mut verbose = false;
    let mut words = env::args(rt)?;
    let _ = words.next();
    for word in words {
        match word.as_str() {
            "-v" => verbose = true,
            "--help" => return Ok(Some(Task::Help)),
            _ => return Ok(None),
        }
    }
    Ok(Some(Task::Serve { verbose }))
}

/// Says what the program is.
pub fn show_help(rt: &HostRuntime) {
    let _ = println!(rt; "house: a BGP route server for an exchange point");
    let _ = println!(rt; "");
    let _ = println!(rt; "usage: house [-v] [--help]");
    let _ = println!(rt; "");
    let _ = println!(rt;
        "Reads event frames from standard input (settings, messages of peers, connections that come and go,"
    );
    let _ = println!(rt;
        "ticks, policy texts) and writes frames to peers to standard output, until the input ends or a frame"
    );
    let _ = println!(rt;
        "cannot be read. Frames and policy texts that are refused are told on standard error, a line each."
    );
    let _ = println!(rt; "");
    let _ = println!(rt; "  -v      tell also of each session that comes up or goes down, and why");
    let _ = println!(rt; "  --help  show this");
}
