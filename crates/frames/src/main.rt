//! Turns a script of events, in words on standard input, into event frames. With the argument `show` it turns frames into
//! words, those that the server writes and event frames.
#![tactic(auto)]

use anyhow::anyhow;
use frame_script::frames;
use frame_show::show;
use std::io::{Read, Write};
use std::{env, io};

fn main(rt: HostRuntime) -> anyhow::Result<()> {
    run(&rt)
}

/// Does what the arguments ask for.
fn run(rt: &HostRuntime) -> anyhow::Result<()> {
    let mut args = env::args(rt)?;
    let _ = args.next();
    let Some(word) = args.next() else {
        return write_frames(rt);
    };
    if word.as_str() == "show" {
        return show_frames(rt);
    }
    Err(anyhow!("the argument is `show`, or there is none"))
}

/// A script to frames. Where a line is refused, none is written.
fn write_frames(rt: &HostRuntime) -> anyhow::Result<()> {
    let heap = rt.alloc();
    let script = io::read_to_string(heap, rt.stdin())?;
    let bytes = frames(heap, script.as_str())?;
    rt.stdout().write_all(bytes.as_slice())?;
    Ok(())
}

/// Frames to words.
fn show_frames(rt: &HostRuntime) -> anyhow::Result<()> {
    let heap = rt.alloc();
    let mut bytes = Vec::new(heap);
    rt.stdin().read_to_end(&mut bytes)?;
    let mut words = String::new(heap);
    show(&mut words, bytes.as_slice())?;
    rt.print(words)?;
    Ok(())
}
