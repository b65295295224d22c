//! What a peer should hold.
ghost use Rattle.std.specs.Prelude.{◌≡◌};
ghost use Rattle.peers.specs.Members.{is_member};
ghost use Rattle.prefix.specs.Meant.{meant};
ghost use Rattle.prefix.specs.Prefix.{number};
ghost use Rattle.route.specs.Meant.{route_of};
ghost use Rattle.selection.specs.Intended.{imported, intended, offered, or_better, selected};
ghost use Rattle.selection.specs.Meant.{candidate_of, heard_seen, rules_seen};
ghost use Rattle.selection.specs.Steps.{SelectSteps};
ghost use Rattle.std.specs.Option.{option_map};

use crate::{Candidate, PolicySource, View, better_of, export, import, offer};
use prefix::Prefix;
use rib::Rib;
use route::Route;

impl<R: Rib, P: PolicySource> View<'_, R, P> {
    /// The best of what is imported of the prefix from the peers that count.
    pub fn select(&self, prefix: Prefix) -> Option<Candidate>
        ensures { option_map candidate_of result ≡ selected (rules_seen P.PolicySource self.now) (heard_seen R.Rib self.now) (number (meant prefix)) self.now.peers }
    {
        let peers = self.peers;
        let mut best = None;
        let mut from = 0;
        self.select_law(prefix, 0, 0);
        while let Some(peer) = self.rib.next_peer(prefix, from, peers) {
            self.select_law(prefix, from, peer);
            if !self.terms.silent.contains(peer) {
                best = self.consider(peer, self.rib.get(peer, prefix), best);
            }
            from = peer + 1;
        }
        self.select_law(prefix, from, peers);
        best
    }

    /// The best of the prefix as it is offered to export policies.
    pub fn offer(&self, prefix: Prefix) -> Option<Candidate>
        ensures { option_map candidate_of result ≡ offered self.now.own_asn (selected (rules_seen P.PolicySource self.now) (heard_seen R.Rib self.now) (number (meant prefix)) self.now.peers) }
    {
        offer(self.own_asn, self.select(prefix))
    }

    /// What the peer should hold of the prefix.
    pub fn intended(&self, peer: u8, prefix: Prefix) -> Option<Route>
        ensures { option_map route_of result ≡ intended (rules_seen P.PolicySource self.now) self.now.peers (heard_seen R.Rib self.now) peer (number (meant prefix)) }
    {
        let offer = self.offer(prefix);
        export(&self.terms.policies.export_policy(peer), peer, &offer)
    }

    /// The best so far, or what is imported of the peer's announcement, if that is better.
    fn consider(
        &self,
        peer: u8,
        announced: Option<&Route>,
        best: Option<Candidate>,
    ) -> Option<Candidate>
        ensures { option_map candidate_of result ≡ or_better peer (imported (rules_seen P.PolicySource self.now) peer (option_map (λ x. route_of x.now) announced.entry)) (option_map candidate_of best) }
    {
        let Some(announced) = announced else {
            return best;
        };
        match import(
            self.own_asn,
            &self.terms.policies.import_policy(peer),
            announced,
        ) {
            None => best,
            Some(route) => better_of(best, Candidate { peer, route }),
        }
    }

    fn select_law(&self, prefix: Prefix, from: u8, to: u8)
        ensures { SelectSteps (rules_seen P.PolicySource self.now) (is_member self.now.terms.silent) (R.Rib.received self.now.rib.now) (number (meant prefix)) from to }
    {}
}
