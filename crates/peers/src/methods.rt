//! Making, asking and changing sets of peers.
ghost use Rattle.std.specs.Prelude.{◌≡◌, ℕ, ◌≤◌, true, false, not, ◌&&◌, if◌then◌else◌, ◌==◌, nat_eq, nat_lt};
ghost use Rattle.peers.specs.Members.{is_member};

use crate::PeerSet;

impl PeerSet {
    pub fn none() -> PeerSet
        ensures { (i : ℕ) → is_member result i ≡ false }
    {
        PeerSet {
            members: [false; 64],
        }
    }

    pub fn all() -> PeerSet
        ensures { (i : ℕ) → is_member result i ≡ nat_lt i 64 }
    {
        PeerSet {
            members: [true; 64],
        }
    }

    pub fn contains(&self, peer: u8) -> bool
        ensures { result ≡ is_member self.now peer }
    {
        self.members
            .get(usize::from(peer))
            .is_some_and(|member| *member)
    }

    pub fn only(peer: u8) -> PeerSet
        ensures { (i : ℕ) → is_member result i ≡ (i == peer && nat_lt peer 64) }
    {
        let mut set = PeerSet::none();
        set.set(peer, true);
        set
    }

    /// Those of this set that are not of the other.
    pub fn without(&self, other: &PeerSet) -> PeerSet
        ensures { (i : ℕ) → is_member result i ≡ (is_member self.now i && not (is_member other.now i)) }
    {
        let mut rest = *self;
        for peer in 0..64 {
            if other.contains(peer) {
                rest.set(peer, false);
            }
        }
        rest
    }

    /// Takes a peer in, or out. A number that no peer has changes nothing.
    #[tactic(auto, using(crate::proofs::Flags::written))]
    pub fn set(&mut self, peer: u8, member: bool)
        ensures { (i : ℕ) → is_member self.new i ≡ (if nat_eq i peer then (if nat_lt peer 64 then member else false) else is_member self.old i) }
    {
        let place = usize::from(peer);
        if place < self.members.len() {
            self.members[place] = member;
        }
    }
}

impl PeerSet {
    /// No number from 64 on is a member.
    pub fn outside_law(&self)
        ensures { (i : ℕ) → 64 ≤ i → is_member self.now i ≡ false }
    {
        let _ = &self.members;
    }
}
