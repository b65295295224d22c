//! Printing what is selected, and what each peer should hold.
use crate::situations::Situation;
use example_words::{eight, show_route};
use route::Route;
use selection::{Candidate, Terms, View};
use std::io;

/// The route server's own network.
const OWN: u32 = 5;

/// Prints which route is selected, how it is offered, and what each peer should hold.
pub fn show(rt: &HostRuntime, situation: &Situation) -> io::Result<()> {
    let peers = situation.peers;
    let view = View {
        own_asn: OWN,
        peers,
        rib: &situation.table,
        terms: Terms {
            policies: &situation.policies,
            silent: situation.silent,
        },
    };
    show_candidate(rt, view.select(eight()))?;
    print!(rt; "; offered:")?;
    show_candidate(rt, view.offer(eight()))?;
    for peer in 0..peers {
        print!(rt; "; {peer}:")?;
        show_option(rt, view.intended(peer, eight()))?;
    }
    println!(rt; "")
}

fn show_candidate(rt: &HostRuntime, candidate: Option<Candidate>) -> io::Result<()> {
    match candidate {
        Some(candidate) => {
            let peer = candidate.peer;
            print!(rt; " {peer} by")?;
            show_route(rt, &candidate.route)
        }
        None => print!(rt; " none"),
    }
}

fn show_option(rt: &HostRuntime, route: Option<Route>) -> io::Result<()> {
    match route {
        Some(route) => show_route(rt, &route),
        None => print!(rt; " none"),
    }
}
