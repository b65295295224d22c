//! Printing routes.
use route::Route;
use std::io;

/// Prints the path, in brackets local preference and MED, and the communities.
pub fn show_route(rt: &HostRuntime, route: &Route) -> io::Result<()> {
    show_numbers(rt, route.path.asns())?;
    let local_pref = route.metrics.local_pref;
    let med = route.metrics.med;
    print!(rt; " ({local_pref}, {med})")?;
    show_numbers(rt, route.communities.as_slice())
}

/// Prints a row of numbers; 31 times 7 is `7*31`.
pub fn show_numbers(rt: &HostRuntime, numbers: &[u32]) -> io::Result<()> {
    for run in numbers.chunk_by(|a, b| a == b) {
        match run {
            [] => {}
            [number] => print!(rt; " {number}")?,
            [number, ..] => {
                let times = run.len();
                print!(rt; " {number}*{times}")?;
            }
        }
    }
    Ok(())
}
