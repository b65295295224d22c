//! Plays scripts through the whole route server, from bytes to bytes, and shows each event, behind `>`, and what goes out.
//!
//! Each script stands behind a `%` and its name, and is played behind what stands before the first `%`. One behind a `$` is
//! played where there is no room for one prefix more. Ticks are counted together, up to one at which something goes out.
#![tactic(auto)]

use anyhow::{Context, anyhow};
use frame_script::frames;
use hall::Hall;
use intake::turns::{Intake, Step};
use outlet::Outlet;
use policy_tables::Policies;
use rib::Rib;
use speaker::Speaker;
use std::fmt::Write;
use std::{fmt, io};
use table::Table;
use wire::skip;

mod hall;
mod outlet;
mod reports;

fn main(rt: HostRuntime) -> anyhow::Result<()> {
    run(&rt)
}

fn run(rt: &HostRuntime) -> anyhow::Result<()> {
    let scripts = io::read_to_string(rt.alloc(), rt.stdin())?;
    let mut groups = scripts.as_str().split('$');
    let Some(group) = groups.next() else {
        return Ok(());
    };
    let mut parts = group.split('%');
    let Some(beginning) = parts.next() else {
        return Ok(());
    };
    rt.println("% # the beginning")?;
    play(rt, beginning, 0)?;
    for script in parts {
        play_behind(rt, beginning, script)?;
    }
    let mut full = format!(in rt.alloc(); "{beginning}")?;
    fill(&mut full)?;
    for script in groups {
        play_behind(rt, full.as_str(), script)?;
    }
    Ok(())
}

/// Adds 16,384 prefixes of peer 1 to a script, in 16 messages.
fn fill(script: &mut String) -> fmt::Result {
    for message in 0u32..16 {
        write!(script, "announce 1")?;
        for place in 0u32..1024 {
            let high = message * 4 + place / 256;
            let low = place % 256;
            write!(script, " {high}.{low}.0.0/16")?;
        }
        writeln!(script, " by 7")?;
    }
    Ok(())
}

/// Plays a script behind the beginning, which isn't shown again.
fn play_behind(rt: &HostRuntime, beginning: &str, script: &str) -> anyhow::Result<()> {
    let heap = rt.alloc();
    if let Some(name) = script.lines().next() {
        println!(rt; "%{name}")?;
    }
    let before = frames(heap, beginning).map_err(|_| anyhow!("the beginning is no script"))?;
    let whole = format!(in heap; "{beginning}{script}")?;
    play(rt, whole.as_str(), before.len())
}

/// Plays a script, and shows what comes from behind so many bytes on.
fn play(rt: &HostRuntime, script: &str, hidden: usize) -> anyhow::Result<()> {
    match frames(rt.alloc(), script) {
        Ok(bytes) => play_bytes(rt, bytes.as_slice(), hidden),
        Err(refused) => {
            println!(rt; "{refused}")?;
            Ok(())
        }
    }
}

/// Plays frames that begin with settings.
fn play_bytes(rt: &HostRuntime, bytes: &[u8], hidden: usize) -> anyhow::Result<()> {
    let heap = rt.alloc();
    let mut intake = Intake::new();
    let turn = intake.next(bytes);
    let (Step::Settings, Some(settings)) = (turn.step, intake.settings()) else {
        return Err(anyhow!("the beginning has no settings"));
    };
    let table = Table::new(heap)?;
    let policies = Policies::new(heap)?;
    let spare = Policies::new(heap)?;
    let outlet = Outlet::new(heap);
    let speaker = Speaker::new(settings, table, policies, spare, outlet).context(
        "there are too many peers",
    )?;
    let shown = bytes.len().saturating_sub(hidden);
    Hall::new(rt, intake, speaker, shown).play(skip(bytes, turn.taken))
}
