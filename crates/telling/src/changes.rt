//! Telling peers of all prefixes.
ghost use Rattle.std.specs.Prelude.{◌≡◌};
ghost use Rattle.model.specs.Chain.{Chain};
ghost use Rattle.model.specs.Updates.{row, updates};
ghost use Rattle.peers.specs.Members.{is_member};
ghost use Rattle.prefix.specs.Meant.{meant};
ghost use Rattle.prefix.specs.Prefix.{count, number};
ghost use Rattle.rib.specs.Received.{heard};
ghost use Rattle.route.specs.Meant.{route_of};
ghost use Rattle.selection.specs.Intended.{intended};
ghost use Rattle.selection.specs.Meant.{rules_in};
ghost use Rattle.std.specs.Option.{option_map};
ghost use Rattle.telling.specs.Meant.{held_after, held_before};
ghost use Rattle.telling.specs.Steps.{RowSteps, UpdateSteps};

use crate::{Change, Sink, tell};
use peers::PeerSet;
use prefix::{COUNT, Prefix};
use rib::Rib;
use route::Route;
use selection::{PolicySource, Terms, View};

impl<R: Rib, P: PolicySource> Change<'_, R, P> {
    /// What the peer should hold of the prefix by such terms.
    fn intended(&self, terms: &Terms<'_, P>, peer: u8, prefix: Prefix) -> Option<Route>
        ensures { option_map route_of result ≡ intended (rules_in P.PolicySource self.now.own_asn terms.now.policies.now) self.now.peers (heard (is_member terms.now.silent) (R.Rib.received self.now.rib.now)) peer (number (meant prefix)) }
    {
        let view = View {
            own_asn: self.own_asn,
            peers: self.peers,
            rib: self.rib,
            terms: Terms {
                policies: terms.policies,
                silent: terms.silent,
            },
        };
        view.intended(peer, prefix)
    }

    /// Tells the peer what is new for it, of all prefixes that somebody has announced, in rising order.
    pub fn tell_peer<S: Sink>(&self, sink: &mut S, peer: u8)
        ensures { Chain S.Sink.sends sink.old (row peer (held_before R.Rib P.PolicySource self.now peer) (held_after R.Rib P.PolicySource self.now peer) count) sink.new }
    {
        let mut from = 0;
        self.row_law(sink, peer, 0, 0);
        while let Some(prefix) = self.rib.next_prefix(from) {
            let number = prefix.number();
            self.row_law(sink, peer, from, number);
            let before = self.intended(&self.before, peer, prefix);
            let after = self.intended(&self.after, peer, prefix);
            tell(sink, peer, prefix, &before, &after);
            from = number + 1;
        }
        self.row_law(sink, peer, from, COUNT);
    }

    /// Tells each peer whose session is up what is new for it, peers in rising order, and for each prefixes in rising order.
    pub fn tell_all<S: Sink>(&self, sink: &mut S, up: &PeerSet)
        ensures { Chain S.Sink.sends sink.old (updates count (is_member up.now) (held_before R.Rib P.PolicySource self.now) (held_after R.Rib P.PolicySource self.now) self.now.peers) sink.new }
    {
        self.update_law(sink, up, 0);
        for peer in 0..self.peers {
            self.update_law(sink, up, peer);
            if up.contains(peer) {
                self.tell_peer(sink, peer);
            }
        }
    }

    fn update_law<S: Sink>(&self, sink: &S, up: &PeerSet, peer: u8)
        ensures { UpdateSteps S.Sink.sends (is_member up.now) (held_before R.Rib P.PolicySource self.now) (held_after R.Rib P.PolicySource self.now) count peer }
    {}

    fn row_law<S: Sink>(&self, sink: &S, peer: u8, from: u32, to: u32)
        ensures { RowSteps S.Sink.sends (rules_in P.PolicySource self.now.own_asn self.now.before.policies.now) (rules_in P.PolicySource self.now.own_asn self.now.after.policies.now) self.now.peers (is_member self.now.before.silent) (is_member self.now.after.silent) (R.Rib.received self.now.rib.now) peer from to }
    {}
}
