//! Making, reading and comparing prefixes.
ghost use Rattle.std.specs.Prelude.{◌≡◌, true, false, MatchOption};
ghost use Rattle.prefix.specs.Laws.{Contained, Equal, Reflexive, Transitive, Whole};
ghost use Rattle.prefix.specs.Meant.{meant};
ghost use Rattle.prefix.specs.Prefix.{is_prefix, within};

use crate::Prefix;

/// Which prefixes are equal, and what it says that one is within another.
pub fn prefix_laws()
    ensures equal { Equal }
    ensures contained { Contained }
    ensures reflexive { Reflexive }
    ensures transitive { Transitive }
    ensures whole { Whole }
{}

impl Prefix {
    /// 0.0.0.0/0, which holds every prefix.
    pub fn whole() -> Prefix
        ensures { meant result ≡ record { address = 0; length = 0 } }
    {
        Prefix {
            address: 0,
            length: 0,
        }
    }

    /// The prefix of that address and length, if there is one.
    pub fn new(address: u32, length: u8) -> Option<Prefix>
        ensures { MatchOption result (is_prefix address length ≡ false) (λ p. (is_prefix address length ≡ true) × (meant p ≡ record { address = address; length = length })) }
    {
        if length > 24 || u64::from(address) % (1u64 << (32 - length)) != 0 {
            return None;
        }
        Some(Prefix { address, length })
    }

    /// The first address.
    pub fn address(&self) -> u32
        ensures { result ≡ (meant self.now).address }
    {
        self.address
    }

    /// How many bits it has.
    pub fn length(&self) -> u8
        ensures { result ≡ (meant self.now).length }
    {
        self.length
    }

    /// Whether each address of `self` is one of `other`.
    pub fn is_within(&self, other: &Prefix) -> bool
        ensures { result ≡ within (meant self.now) (meant other.now) }
    {
        let behind = 32 - other.length;
        other.length <= self.length
            && u64::from(self.address) >> behind == u64::from(other.address) >> behind
    }
}
