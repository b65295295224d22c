//! Playing a case.
use crate::cases::{Case, Event, Prefixes};
use crate::policies::{Plan, Policies, Texts, nine};
use crate::printer::{Printer, Silence};
use anyhow::anyhow;
use example_words::{eight, plain_route};
use peers::PeerSet;
use prefix::Prefix;
use rib::Rib;
use route::{Metrics, Route};
use server::Server;
use table::Table;
use telling::Sink;

/// The four sessions come up, every policy accepts everything, and then the events of the case.
pub fn play(rt: &HostRuntime, texts: &Texts, case: Case) -> anyhow::Result<()> {
    let table = Table::new(rt.alloc())?;
    let server = Server::new(5, 4, texts.policies(Plan::Nobody), table).map_err(|_| anyhow!(
        "there are too many peers"
    ))?;
    let mut stage = Stage { server, texts };
    for peer in 0..4 {
        stage.take(&mut Silence, Event::Up(peer));
    }
    stage.take(&mut Silence, Event::InForce(Plan::Everybody));
    for row in case.lead {
        for event in *row {
            stage.take(&mut Silence, *event);
        }
    }
    let mut printer = Printer::new(rt, case.name);
    stage.take(&mut printer, case.last);
    printer.end()?;
    Ok(())
}

/// The server, and the policies that may come into force.
#[derive(Drop)]
struct Stage<'a, R: Rib> {
    server: Server<R, Policies<'a>>,
    texts: &'a Texts,
}

impl<'a, R: Rib> Stage<'a, R> {
    fn take<S: Sink>(&mut self, sink: &mut S, event: Event) {
        match event {
            Event::Up(peer) => {
                let _ = self.server.establish(sink, peer);
            }
            Event::Down(peer) => self.server.take_down(sink, &PeerSet::only(peer)),
            Event::InForce(plan) => {
                let mut policies = self.texts.policies(plan);
                self.server.put_in_force(sink, &mut policies);
            }
            Event::Announce {
                peer,
                prefixes: Prefixes::Eight,
                asns,
                community,
            } => self.announce(sink, peer, route(eight(), asns, community)),
            Event::Announce {
                peer,
                prefixes: Prefixes::Nine,
                asns,
                community,
            } => {
                for prefix in nine().as_slice() {
                    self.announce(sink, peer, route(*prefix, asns, community));
                }
            }
        }
    }

    fn announce<S: Sink>(&mut self, sink: &mut S, peer: u8, route: Option<Route>) {
        if let Some(route) = route {
            self.server.announce(sink, peer, &route);
        }
    }
}

/// The route to a prefix by a path of 1 to 32 networks, with a community or none.
fn route(prefix: Prefix, asns: &[u32], community: Option<u32>) -> Option<Route> {
    let metrics = Metrics {
        local_pref: 0,
        med: 0,
    };
    let mut route = plain_route(prefix, asns, metrics)?;
    if let Some(community) = community {
        let _ = route.communities.add(community);
    }
    Some(route)
}
