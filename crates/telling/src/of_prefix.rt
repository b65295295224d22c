//! Telling all peers of one prefix.
ghost use Rattle.std.specs.Prelude.{[], if◌then◌else◌};
ghost use Rattle.model.specs.Chain.{Chain};
ghost use Rattle.model.specs.Updates.{tell_if};
ghost use Rattle.peers.specs.Members.{is_member};
ghost use Rattle.prefix.specs.Meant.{meant};
ghost use Rattle.prefix.specs.Prefix.{number};
ghost use Rattle.selection.specs.Intended.{exported_to};
ghost use Rattle.selection.specs.Meant.{candidate_of};
ghost use Rattle.std.specs.Option.{option_map};
ghost use Rattle.telling.specs.Steps.{IfUpSteps, PeerSteps, of_prefix};

use crate::{Sink, tell};
use peers::PeerSet;
use prefix::Prefix;
use selection::{Candidate, PolicySource, export};

/// What was offered of a prefix before, and what is now; to whom, and by which policies.
#[derive_where(Clone, Copy)]
pub struct Offers<'a, P: PolicySource> {
    pub prefix: Prefix,
    pub old: Option<Candidate>,
    pub new: Option<Candidate>,
    pub up: &'a PeerSet,
    pub policies: &'a P,
}

impl<P: PolicySource> Offers<'_, P> {
    /// Tells each peer below `peers` whose session is up what is new for it of the prefix, in rising order.
    pub fn tell_all<S: Sink>(&self, sink: &mut S, peers: u8)
        ensures { Chain S.Sink.sends sink.old (of_prefix (number (meant self.now.prefix)) (is_member self.now.up.now) (P.PolicySource.exports self.now.policies.now) (option_map candidate_of self.now.old) (option_map candidate_of self.now.new) peers) sink.new }
    {
        self.peer_law(sink);
        for peer in 0..peers {
            self.tell_if_up(sink, peer);
        }
    }

    /// The same, for one peer.
    fn tell_if_up<S: Sink>(&self, sink: &mut S, peer: u8)
        ensures { Chain S.Sink.sends sink.old (if is_member self.now.up.now peer then tell_if peer (number (meant self.now.prefix)) (exported_to (P.PolicySource.exports self.now.policies.now peer) peer (option_map candidate_of self.now.old)) (exported_to (P.PolicySource.exports self.now.policies.now peer) peer (option_map candidate_of self.now.new)) else []) sink.new }
    {
        self.if_up_law(sink, peer);
        if !self.up.contains(peer) {
            return;
        }
        let policy = self.policies.export_policy(peer);
        let old = export(&policy, peer, &self.old);
        let new = export(&policy, peer, &self.new);
        tell(sink, peer, self.prefix, &old, &new);
    }

    fn peer_law<S: Sink>(&self, sink: &S)
        ensures { PeerSteps S.Sink.sends (number (meant self.now.prefix)) (is_member self.now.up.now) (P.PolicySource.exports self.now.policies.now) (option_map candidate_of self.now.old) (option_map candidate_of self.now.new) }
    {}

    fn if_up_law<S: Sink>(&self, sink: &S, peer: u8)
        ensures { IfUpSteps S.Sink.sends (is_member self.now.up.now peer) (tell_if peer (number (meant self.now.prefix)) (exported_to (P.PolicySource.exports self.now.policies.now peer) peer (option_map candidate_of self.now.old)) (exported_to (P.PolicySource.exports self.now.policies.now peer) peer (option_map candidate_of self.now.new))) }
    {}
}
