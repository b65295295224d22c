//! Works through rows of small tasks on prefixes, paths, communities, conditions, actions and policies, and prints the answers.
//!
//! A row is a name and, behind a colon, its tasks; a row without a colon is a heading. At its start the route is 10.1.0.0/16 by 7 9 11, with local preference 100, MED 7 and the communities 3 and 5; there are no lists, no parts and no clauses.
//!
//! - `prefix`, `path`, `communities` set that of the route, and say `none` where there is no such; `bare` takes all communities off. `prepend`, `add` and `remove` change it, and say `yes` or `no`; `length` is that of the path; `number` is that of the prefix, with the prefix that has the number. `show` prints the route: its path, in brackets local preference and MED, and its communities.
//! - `list` adds prefixes to a list, `sixteens` adds 10.0.0.0/16, 10.1.0.0/16 and so on, `size` is how many it has, and `keep` begins the next. `usual` are three lists: 10.0.0.0/8 and 192.168.0.0/16; 192.168.0.0/16 and 10.1.0.0/16; nothing.
//! - `fits` asks a test, by five marks: as a test, as a part and as a condition, and as a negated part and condition. `push` adds a part to a condition so many times, and prints how many were taken and whether it holds.
//! - `act` does one action. A clause is `if .. then ..`, or `then ..`; `evaluate` goes through the clauses.
#![tactic(auto)]

use bench::Bench;

mod bench;
mod lists;
mod numbers_of_prefixes;
mod questions;

fn main(rt: HostRuntime) -> anyhow::Result<()> {
    run(&rt)
}

fn run(rt: &HostRuntime) -> anyhow::Result<()> {
    for line in rt.lines(rt.alloc()) {
        let line = line?;
        show_row(rt, line.as_str())?;
    }
    Ok(())
}

fn show_row(rt: &HostRuntime, row: &str) -> anyhow::Result<()> {
    let Some((name, tasks)) = row.split_once(':') else {
        println!(rt; "{row}")?;
        return Ok(());
    };
    let mut bench = Bench::new(rt)?;
    print!(rt; "{name}:")?;
    for task in tasks.split(';') {
        bench.work(task)?;
    }
    println!(rt; "")?;
    Ok(())
}
