//! The routes of the table.
use policy_words::prefix_of;
use route::{Communities, Metrics, Path, Route};
use std::alloc::{AllocError, Global};
use std::io;

/// A route, and the peer on whose policy it is tried.
#[derive(Clone, Copy)]
pub struct Trial {
    pub peer: u8,
    pub route: Route,
}

/// What a row tries: behind the direction stand the peer, the prefix, the path, the local preference, the MED and the communities.
pub fn trial_of(heap: Global, row: &str) -> Result<Option<Trial>, AllocError> {
    let mut words = row.split(' ').skip(1);
    let peer = words.next().unwrap_or("").parse::<u8>().unwrap_or(0);
    let prefix = words.next().unwrap_or("");
    let asns = numbers(heap, words.next().unwrap_or(""))?;
    let local_pref = words.next().unwrap_or("").parse::<u32>().unwrap_or(0);
    let med = words.next().unwrap_or("").parse::<u32>().unwrap_or(0);
    let communities = numbers(heap, words.next().unwrap_or(""))?;
    let metrics = Metrics { local_pref, med };
    let route = route_of(prefix, asns.as_slice(), metrics, communities.as_slice());
    Ok(route.map(|route| Trial { peer, route }))
}

/// The route of these, if each of them may stand in one.
fn route_of(prefix: &str, asns: &[u32], metrics: Metrics, communities: &[u32]) -> Option<Route> {
    Some(Route {
        prefix: prefix_of(prefix.as_bytes())?,
        path: Path::new(asns)?,
        metrics,
        communities: Communities::of(communities)?,
    })
}

/// The numbers of a row, as `5,7*3`; `-` is none.
fn numbers(heap: Global, word: &str) -> Result<Vec<u32>, AllocError> {
    let mut numbers = Vec::new(heap);
    if word == "-" {
        return Ok(numbers);
    }
    for part in word.split(',') {
        let (number, times) = part.split_once('*').unwrap_or((part, "1"));
        for _ in 0..times.parse::<u8>().unwrap_or(0) {
            numbers.push(number.parse::<u32>().unwrap_or(0))?;
        }
    }
    Ok(numbers)
}

pub fn show_route(rt: &HostRuntime, route: &Route) -> io::Result<()> {
    let local_pref = route.metrics.local_pref;
    let med = route.metrics.med;
    print!(rt; "path")?;
    show_numbers(rt, route.path.asns())?;
    print!(rt; ", local preference {local_pref}, MED {med}, communities")?;
    show_numbers(rt, route.communities.as_slice())?;
    println!(rt; "")
}

fn show_numbers(rt: &HostRuntime, numbers: &[u32]) -> io::Result<()> {
    if numbers.is_empty() {
        return print!(rt; " none");
    }
    for number in numbers {
        let number = *number;
        print!(rt; " {number}")?;
    }
    Ok(())
}
