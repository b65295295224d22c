//! Reads the policy texts of a table, and tries routes on the policies in force. The table says what its rows are. A text that is refused is told of in a line, as the route server does.
#![tactic(auto)]

use configuration::Configuration;
use notation::push_text;
use policy::Verdict;
use policy_tables::Direction;
use routes::{show_route, trial_of};
use std::io::{BufRead, BufReader};
use std::{fs, io};

mod notation;
mod routes;

fn main(rt: HostRuntime) -> io::Result<()> {
    let mut configuration = Configuration::new(rt.alloc())?;
    for line in BufReader::new(rt.alloc(), rt.stdin())?.lines(rt.alloc()) {
        let line = line?;
        show_row(&rt, &mut configuration, line.as_str())?;
    }
    Ok(())
}

fn show_row(rt: &HostRuntime, configuration: &mut Configuration, row: &str) -> io::Result<()> {
    let mut words = row.splitn(4, ' ');
    let kind = words.next().unwrap_or("");
    let name = words.next().unwrap_or("");
    let peers = words.next().unwrap_or("").parse::<u8>().unwrap_or(0);
    let text = words.next().unwrap_or("");
    match kind {
        "" | "#" => Ok(()),
        "text" => {
            let mut bytes = Vec::new(rt.alloc());
            push_text(rt.alloc(), &mut bytes, text)?;
            print!(rt; "{name}")?;
            read(rt, configuration, peers, bytes.as_slice())
        }
        "file" => {
            let bytes = fs::read(rt, text)?;
            print!(rt; "{name}")?;
            read(rt, configuration, peers, bytes.as_slice())
        }
        "cut" => {
            let mut bytes = Vec::new(rt.alloc());
            push_text(rt.alloc(), &mut bytes, text)?;
            cut(rt, configuration, name, peers, bytes.as_slice())
        }
        "from" => evaluate(rt, configuration, Direction::Import, row),
        "to" => evaluate(rt, configuration, Direction::Export, row),
        _ => println!(rt; "{row}: no row"),
    }
}

fn read(
    rt: &HostRuntime,
    configuration: &mut Configuration,
    peers: u8,
    text: &[u8],
) -> io::Result<()> {
    match configuration.read(peers, text) {
        Ok(()) => println!(rt; ": read"),
        Err(refusal) => {
            let line = refusal.line(text);
            println!(rt; ": {line}")
        }
    }
}

/// Reads each part of the text that stands in front.
fn cut(
    rt: &HostRuntime,
    configuration: &mut Configuration,
    name: &str,
    peers: u8,
    text: &[u8],
) -> io::Result<()> {
    for count in 0..=text.len() {
        print!(rt; "{name} {count}")?;
        read(rt, configuration, peers, &text[..count])?;
    }
    Ok(())
}

/// Tries the row's route on a policy in force.
fn evaluate(
    rt: &HostRuntime,
    configuration: &Configuration,
    direction: Direction,
    row: &str,
) -> io::Result<()> {
    print!(rt; "  {row}: ")?;
    let Some(trial) = trial_of(rt.alloc(), row)? else {
        return println!(rt; "no route");
    };
    let mut route = trial.route;
    match configuration.evaluate(direction, trial.peer, &mut route) {
        Verdict::Accepted => show_route(rt, &route),
        Verdict::Rejected => println!(rt; "rejected"),
    }
}
