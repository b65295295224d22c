//! Reads situations, one to a row, and prints for each which route is selected of 10.0.0.0/8 and what each peer should hold.
//!
//! A row is a name and, behind a colon, its parts: `1 by 7 9` and `1 far 3 by 7 9`, what peer 1 announces, with MED 3; `elsewhere 1 by 7`, what it announces of another prefix; `from 1 if any then like 200` and `to 1 if not passes 5 then leave`, clauses of its import and export policy, behind which everything is accepted; `silent 1`; `peers 2`. A row without a colon is a heading. The own network is 5. Of a route its path is printed, in brackets local preference and MED, and its communities.
//!
//! Then compares thirteen candidates with each other.
#![tactic(auto)]

use printing::show;
use ranks::show_ranks;
use situations::Situation;

mod policies;
mod printing;
mod ranks;
mod situations;

fn main(rt: HostRuntime) -> anyhow::Result<()> {
    run(&rt)
}

fn run(rt: &HostRuntime) -> anyhow::Result<()> {
    for line in rt.lines(rt.alloc()) {
        let line = line?;
        show_row(rt, line.as_str())?;
    }
    show_ranks(rt)?;
    Ok(())
}

fn show_row(rt: &HostRuntime, row: &str) -> anyhow::Result<()> {
    let Some((name, parts)) = row.split_once(':') else {
        println!(rt; "{row}")?;
        return Ok(());
    };
    let mut situation = Situation::new(rt.alloc())?;
    for part in parts.split(';') {
        situation.read(rt.alloc(), part)?;
    }
    print!(rt; "{name}:")?;
    show(rt, &situation)?;
    Ok(())
}
