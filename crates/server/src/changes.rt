//! The inner steps that can change what is held of any prefix.
ghost use Rattle.std.specs.Prelude.{◌≡◌, ℕ, ◌&&◌, if◌then◌else◌, None, nat_lt};
ghost use Rattle.peers.specs.Members.{is_member};
ghost use Rattle.selection.specs.Meant.{rules_in};
ghost use Rattle.server.specs.Meant.{SameRules, rules_of_server};
ghost use Rattle.server.specs.Facts.{Replaced, SameSilence, Silenced, Welcomed, everybody, nobody};

use crate::Server;
use peers::PeerSet;
use rib::Rib;
use selection::{PolicySource, Terms};
use telling::{Change, Sink};

impl<R: Rib, P: PolicySource> Server<R, P> {
    /// Takes the sessions of a set down: their announcements are gone, and the other peers are told what is new.
    pub(crate) fn silence<S: Sink>(&mut self, sink: &mut S, down: &PeerSet)
        ensures same { SameRules self.old self.new }
        ensures after { Silenced S.Sink.sends (rules_of_server P.PolicySource self.old) self.old.peers (is_member down.now) (R.Rib.received self.old.rib) (R.Rib.received self.new.rib) (is_member self.old.up) (is_member self.new.up) sink.old sink.new }
    {
        let none = PeerSet::none();
        let up = self.up.without(down);
        self.silence_law(sink, &none, down, &up);
        let change = Change {
            own_asn: self.own_asn,
            peers: self.peers,
            rib: &self.rib,
            before: Terms {
                policies: &self.policies,
                silent: none,
            },
            after: Terms {
                policies: &self.policies,
                silent: *down,
            },
        };
        change.tell_all(sink, &up);
        self.up = up;
        clear_all(&mut self.rib, down, self.peers);
    }

    /// Brings a peer's session up: it is told from the start all that it should hold.
    pub(crate) fn welcome<S: Sink>(&mut self, sink: &mut S, peer: u8)
        ensures same { SameRules self.old self.new }
        ensures after { Welcomed S.Sink.sends (rules_of_server P.PolicySource self.old) self.old.peers peer (R.Rib.received self.old.rib) (R.Rib.received self.new.rib) (is_member self.old.up) (is_member self.new.up) sink.old sink.new }
    {
        let all = PeerSet::all();
        let none = PeerSet::none();
        self.welcome_law(sink, &all, &none, peer);
        let change = Change {
            own_asn: self.own_asn,
            peers: self.peers,
            rib: &self.rib,
            before: Terms {
                policies: &self.policies,
                silent: all,
            },
            after: Terms {
                policies: &self.policies,
                silent: none,
            },
        };
        change.tell_peer(sink, peer);
        self.up.set(peer, true);
    }

    /// Puts other policies in force, and hands the old ones back: all are told what is new.
    pub(crate) fn replace<S: Sink>(&mut self, sink: &mut S, policies: &mut P)
        ensures same { (self.new.own_asn ≡ self.old.own_asn) × (self.new.peers ≡ self.old.peers) × (self.new.up ≡ self.old.up) }
        ensures policies { (self.new.policies ≡ policies.old) × (policies.new ≡ self.old.policies) }
        ensures after { Replaced S.Sink.sends (rules_of_server P.PolicySource self.old) (rules_in P.PolicySource self.old.own_asn policies.old) self.old.peers (R.Rib.received self.old.rib) (R.Rib.received self.new.rib) (is_member self.old.up) sink.old sink.new }
    {
        let none = PeerSet::none();
        self.replace_law(sink, policies, &none);
        let before = Terms {
            policies: &self.policies,
            silent: none,
        };
        let after = Terms {
            policies: &*policies,
            silent: none,
        };
        let change = Change {
            own_asn: self.own_asn,
            peers: self.peers,
            rib: &self.rib,
            before,
            after,
        };
        change.tell_all(sink, &self.up);
        std::mem::swap(&mut self.policies, policies);
    }

    fn welcome_law<S: Sink>(&self, sink: &S, all: &PeerSet, none: &PeerSet, peer: u8)
        ensures { SameSilence S.Sink.sends (rules_of_server P.PolicySource self.now) (rules_of_server P.PolicySource self.now) self.now.peers (is_member all.now) (is_member none.now) everybody nobody (is_member self.now.up) (R.Rib.received self.now.rib) peer }
    {}

    fn replace_law<S: Sink>(&self, sink: &S, policies: &P, none: &PeerSet)
        ensures { SameSilence S.Sink.sends (rules_of_server P.PolicySource self.now) (rules_in P.PolicySource self.now.own_asn policies.now) self.now.peers (is_member none.now) (is_member none.now) nobody nobody (is_member self.now.up) (R.Rib.received self.now.rib) 0 }
    {}

    fn silence_law<S: Sink>(&self, sink: &S, none: &PeerSet, down: &PeerSet, up: &PeerSet)
        ensures { SameSilence S.Sink.sends (rules_of_server P.PolicySource self.now) (rules_of_server P.PolicySource self.now) self.now.peers (is_member none.now) (is_member down.now) nobody (is_member down.now) (is_member up.now) (R.Rib.received self.now.rib) 0 }
    {}
}

/// Forgets what the peers of a set announced, of those below `peers`.
fn clear_all<R: Rib>(rib: &mut R, set: &PeerSet, peers: u8)
    ensures { (i p : ℕ) → R.Rib.received rib.new i p ≡ (if nat_lt i peers && is_member set.now i then None else R.Rib.received rib.old i p) }
{
    for peer in 0..peers {
        if set.contains(peer) {
            rib.clear(peer);
        }
    }
}
