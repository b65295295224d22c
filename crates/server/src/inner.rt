//! The inner steps of the server.
ghost use Rattle.std.specs.Prelude.{◌≡◌, ℕ, false, ◌&&◌, Some, None, MatchResult, is_ok, nat_le, nat_lt};
ghost use Rattle.peers.specs.Members.{is_member};
ghost use Rattle.prefix.specs.Meant.{meant};
ghost use Rattle.prefix.specs.Prefix.{count, number};
ghost use Rattle.rib.specs.Received.{Same, capacity, most_peers, stored, updated};
ghost use Rattle.route.specs.Meant.{route_of};
ghost use Rattle.selection.specs.Intended.{offered, selected};
ghost use Rattle.selection.specs.Meant.{candidate_of};
ghost use Rattle.model.specs.Chain.{Chain};
ghost use Rattle.telling.specs.Steps.{of_prefix};
ghost use Rattle.server.specs.Meant.{SameRules, rules_of_server};
ghost use Rattle.server.specs.Facts.{Kept, SelectedHeard};
ghost use Rattle.std.specs.Option.{option_map};

use crate::Server;
use peers::PeerSet;
use prefix::Prefix;
use rib::Rib;
use route::Route;
use rows::Full;
use selection::{Candidate, PolicySource, Terms, View};
use telling::{Offers, Sink};

impl<R: Rib, P: PolicySource> Server<R, P> {
    /// How many peers there are.
    pub fn peers(&self) -> u8
        ensures { result ≡ self.now.peers }
    {
        self.peers
    }

    /// What each peer last announced.
    pub fn rib(&self) -> &R
        ensures { result.now ≡ self.now.rib }
    {
        &self.rib
    }

    /// Whether what the peer says counts: it is there, and its session is up.
    pub fn hears(&self, peer: u8) -> bool
        ensures { result ≡ (nat_lt peer self.now.peers && is_member self.now.up peer) }
    {
        peer < self.peers && self.up.contains(peer)
    }

    /// What is offered of the prefix to export policies.
    fn offer(&self, prefix: Prefix) -> Option<Candidate>
        ensures { option_map candidate_of result ≡ offered self.now.own_asn (selected (rules_of_server P.PolicySource self.now) (R.Rib.received self.now.rib) (number (meant prefix)) self.now.peers) }
    {
        let silent = PeerSet::none();
        self.heard_law(&silent, prefix);
        let view = View {
            own_asn: self.own_asn,
            peers: self.peers,
            rib: &self.rib,
            terms: Terms {
                policies: &self.policies,
                silent,
            },
        };
        view.offer(prefix)
    }

    /// Keeps what the peer announces, and tells all what is new of its prefix; nothing is done where there is no room.
    pub(crate) fn keep<S: Sink>(
        &mut self,
        sink: &mut S,
        peer: u8,
        route: &Route,
    ) -> Result<(), Full>
        ensures same { SameRules self.old self.new }
        ensures up { self.new.up ≡ self.old.up }
        ensures fits { is_ok result ≡ (nat_lt peer most_peers && nat_le (stored most_peers count (updated peer (number (meant route.now.prefix)) (Some (route_of route.now)) (R.Rib.received self.old.rib))) capacity) }
        ensures after { MatchResult result (λ _. Kept S.Sink.sends (rules_of_server P.PolicySource self.old) self.old.peers (is_member self.old.up) peer (number (meant route.now.prefix)) (Some (route_of route.now)) (R.Rib.received self.old.rib) (R.Rib.received self.new.rib) sink.old sink.new) (λ _. Same (R.Rib.received self.new.rib) (R.Rib.received self.old.rib) × (sink.new ≡ sink.old)) }
    {
        let prefix = route.prefix;
        let old = self.offer(prefix);
        self.rib.put(peer, route)?;
        self.tell_offers(sink, prefix, old);
        Ok(())
    }

    /// Forgets what the peer announced of the prefix, and tells all what is new of it.
    pub(crate) fn forget<S: Sink>(&mut self, sink: &mut S, peer: u8, prefix: Prefix)
        ensures same { SameRules self.old self.new }
        ensures up { self.new.up ≡ self.old.up }
        ensures after { Kept S.Sink.sends (rules_of_server P.PolicySource self.old) self.old.peers (is_member self.old.up) peer (number (meant prefix)) None (R.Rib.received self.old.rib) (R.Rib.received self.new.rib) sink.old sink.new }
    {
        let old = self.offer(prefix);
        self.rib.remove(peer, prefix);
        self.tell_offers(sink, prefix, old);
    }

    /// Tells all what is new of the prefix, of which that was offered before.
    fn tell_offers<S: Sink>(&self, sink: &mut S, prefix: Prefix, old: Option<Candidate>)
        ensures { Chain S.Sink.sends sink.old (of_prefix (number (meant prefix)) (is_member self.now.up) (P.PolicySource.exports self.now.policies) (option_map candidate_of old) (offered self.now.own_asn (selected (rules_of_server P.PolicySource self.now) (R.Rib.received self.now.rib) (number (meant prefix)) self.now.peers)) self.now.peers) sink.new }
    {
        let offers = Offers {
            prefix,
            old,
            new: self.offer(prefix),
            up: &self.up,
            policies: &self.policies,
        };
        offers.tell_all(sink, self.peers);
    }

    fn heard_law(&self, silent: &PeerSet, prefix: Prefix)
        ensures { SelectedHeard (rules_of_server P.PolicySource self.now) (is_member silent.now) (R.Rib.received self.now.rib) (number (meant prefix)) self.now.peers }
    {}
}
