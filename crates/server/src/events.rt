//! The events of the server. Whatever came before, after each of them every peer whose session is up has been told exactly what the policies of now and everybody's last announcements mean.
ghost use Rattle.std.specs.Prelude.{◌≡◌, ℕ, ◌<◌, ◌≤◌, not, ◌&&◌, [], None, MatchBool, MatchResult, nat_lt};
ghost use Rattle.model.specs.Model.{Announces, Establishes, GoDown, PutInForce, Withdraws};
ghost use Rattle.model.specs.Stands.{Promised, Stands};
ghost use Rattle.peers.specs.Members.{is_member};
ghost use Rattle.prefix.specs.Meant.{meant};
ghost use Rattle.prefix.specs.Prefix.{number};
ghost use Rattle.rib.specs.Received.{most_peers};
ghost use Rattle.route.specs.Meant.{route_of};
ghost use Rattle.selection.specs.Meant.{rules_in};
ghost use Rattle.server.specs.Meant.{members_below, now_in, size_of};

use crate::Server;
use peers::PeerSet;
use prefix::Prefix;
use rib::Rib;
use route::Route;
use rows::Full;
use selection::PolicySource;
use telling::Sink;

impl<R: Rib, P: PolicySource> Server<R, P> {
    /// A server for so many peers, at most 64, with no session up. It stands before any event if the table is empty.
    pub fn new(own_asn: u32, peers: u8, policies: P, rib: R) -> Result<Server<R, P>, (P, R)>
        ensures { MatchResult result (λ s. (s.peers ≡ peers) × (peers ≤ most_peers) × (((i p : ℕ) → R.Rib.received rib i p ≡ None) → Stands (size_of peers) (rules_in P.PolicySource own_asn policies) (now_in R.Rib P.PolicySource s) [])) (λ back. (most_peers < peers) × (back.0 ≡ policies) × (back.1 ≡ rib)) }
    {
        if peers > 64 {
            return Err((policies, rib));
        }
        Ok(Server {
            own_asn,
            peers,
            up: PeerSet::none(),
            policies,
            rib,
        })
    }

    /// A peer announces a route. It counts if the peer's session is up; where there is no room for it, the session goes down.
    pub fn announce<S: Sink>(&mut self, sink: &mut S, peer: u8, route: &Route)
        ensures same_size { self.new.peers ≡ self.old.peers }
        ensures promise { Promised (size_of self.old.peers) (Announces peer (route_of route.now)) (now_in R.Rib P.PolicySource self.old) (now_in R.Rib P.PolicySource self.new) S.Sink.sends sink.old sink.new }
    {
        if !self.hears(peer) {
            return;
        }
        match self.keep(sink, peer, route) {
            Ok(()) => {}
            Err(Full) => self.silence(sink, &PeerSet::only(peer)),
        }
    }

    /// A peer withdraws a prefix.
    pub fn withdraw<S: Sink>(&mut self, sink: &mut S, peer: u8, prefix: Prefix)
        ensures same_size { self.new.peers ≡ self.old.peers }
        ensures promise { Promised (size_of self.old.peers) (Withdraws peer (number (meant prefix))) (now_in R.Rib P.PolicySource self.old) (now_in R.Rib P.PolicySource self.new) S.Sink.sends sink.old sink.new }
    {
        if self.hears(peer) {
            self.forget(sink, peer, prefix);
        }
    }

    /// A peer's session is established: it is told from the start. False, and nothing is done, where there is no such peer or its session is up already;
    /// a bool, as of a set's `insert`, since an error would carry nothing.
    pub fn establish<S: Sink>(&mut self, sink: &mut S, peer: u8) -> bool
        ensures same_size { self.new.peers ≡ self.old.peers }
        ensures answer { result ≡ (nat_lt peer self.old.peers && not (is_member self.old.up peer)) }
        ensures promise { MatchBool result (Promised (size_of self.old.peers) (Establishes peer) (now_in R.Rib P.PolicySource self.old) (now_in R.Rib P.PolicySource self.new) S.Sink.sends sink.old sink.new) ((self.new ≡ self.old) × (sink.new ≡ sink.old)) }
    {
        if peer >= self.peers || self.up.contains(peer) {
            return false;
        }
        self.welcome(sink, peer);
        true
    }

    /// The sessions of a set of peers go down, at one moment.
    pub fn take_down<S: Sink>(&mut self, sink: &mut S, down: &PeerSet)
        ensures same_size { self.new.peers ≡ self.old.peers }
        ensures promise { Promised (size_of self.old.peers) (GoDown (members_below self.old.peers (is_member down.now))) (now_in R.Rib P.PolicySource self.old) (now_in R.Rib P.PolicySource self.new) S.Sink.sends sink.old sink.new }
    {
        self.silence(sink, down);
    }

    /// Policies are put in force; the old ones are handed back.
    pub fn put_in_force<S: Sink>(&mut self, sink: &mut S, policies: &mut P)
        ensures same_size { self.new.peers ≡ self.old.peers }
        ensures old { policies.new ≡ self.old.policies }
        ensures promise { Promised (size_of self.old.peers) (PutInForce (P.PolicySource.imports policies.old) (P.PolicySource.exports policies.old)) (now_in R.Rib P.PolicySource self.old) (now_in R.Rib P.PolicySource self.new) S.Sink.sends sink.old sink.new }
    {
        self.replace(sink, policies);
    }
}
