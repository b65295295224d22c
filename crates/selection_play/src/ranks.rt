//! Which of two candidates is better.
ghost use Rattle.std.specs.Prelude.{◌≡◌, false, ◌&&◌, MatchOption, nat_le, nat_lt};
ghost use Rattle.selection.specs.Intended.{rank};
ghost use Rattle.selection.specs.Meant.{candidate_of};

use example_words::{BEST_TO_WORST, eight, plain_route};
use route::Metrics;
use selection::{Candidate, better_of};
use std::io;

/// The candidate of these numbers; none where no path is so long.
fn candidate(numbers: (u32, usize, u32, u8)) -> Option<Candidate>
    ensures { MatchOption result ((nat_lt 0 numbers.1 && nat_le numbers.1 32) ≡ false) (λ c. rank (candidate_of c) ≡ record { local_pref = numbers.0; path_length = numbers.1; med = numbers.2; peer = numbers.3 }) }
{
    let (local_pref, path_len, med, peer) = numbers;
    let asns = [7; 32];
    let route = plain_route(eight(), asns.get(..path_len)?, Metrics { local_pref, med })?;
    Some(Candidate { peer, route })
}

/// Prints of each candidate which others it outranks, and which is the better of it and each of all.
pub fn show_ranks(rt: &HostRuntime) -> io::Result<()> {
    println!(rt; "Candidates, from the best to the worst")?;
    for first in BEST_TO_WORST.into_iter().filter_map(candidate) {
        let peer = first.peer;
        print!(rt; "{peer} outranks:")?;
        show_outranked(rt, first)?;
        print!(rt; "; the better of it and each:")?;
        show_better(rt, first)?;
        println!(rt; "")?;
    }
    show_best(rt)
}

fn show_outranked(rt: &HostRuntime, first: Candidate) -> io::Result<()> {
    for second in BEST_TO_WORST.into_iter().filter_map(candidate) {
        if first.rank().outranks(second.rank()) {
            let peer = second.peer;
            print!(rt; " {peer}")?;
        }
    }
    Ok(())
}

fn show_better(rt: &HostRuntime, first: Candidate) -> io::Result<()> {
    for second in BEST_TO_WORST.into_iter().filter_map(candidate) {
        show_peer(rt, better_of(Some(first), second))?;
    }
    Ok(())
}

/// Prints the best of one, and of all in both orders.
fn show_best(rt: &HostRuntime) -> io::Result<()> {
    let falling = BEST_TO_WORST
        .into_iter()
        .filter_map(candidate)
        .fold(None, |best, candidate| better_of(best, candidate));
    let rising = BEST_TO_WORST
        .into_iter()
        .rev()
        .filter_map(candidate)
        .fold(None, |best, candidate| better_of(best, candidate));
    print!(rt; "the best of one:")?;
    if let Some(only) = candidate((0, 32, 4_294_967_295, 255)) {
        show_peer(rt, better_of(None, only))?;
    }
    print!(rt; "; of all, from the best:")?;
    show_peer(rt, falling)?;
    print!(rt; "; of all, from the worst:")?;
    show_peer(rt, rising)?;
    println!(rt; "")
}

fn show_peer(rt: &HostRuntime, candidate: Option<Candidate>) -> io::Result<()> {
    match candidate {
        Some(candidate) => {
            let peer = candidate.peer;
            print!(rt; " {peer}")
        }
        None => print!(rt; " none"),
    }
}
