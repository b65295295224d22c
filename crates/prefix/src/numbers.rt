//! The numbers of prefixes, by address and, at one address, by length.
ghost use Rattle.std.specs.Prelude.{◌≡◌, ◌+◌, ◌-◌, ◌^◌, ◌<◌, ◌≤◌, if◌then◌else◌, MatchOption};
ghost use Rattle.prefix.specs.Laws.{Bounded, Injective, Inverse, Onto, Rising};
ghost use Rattle.prefix.specs.Meant.{meant};
ghost use Rattle.prefix.specs.Prefix.{count, number, prefix_of};
ghost use Rattle.prefix.specs.Steps.{Descends, Ends};

use crate::Prefix;

/// How many prefixes there are.
pub const COUNT: u32 = 33_554_431;

/// Numbers have the order of prefixes, and each below `COUNT` is that of one.
pub fn number_laws()
    ensures rising { Rising }
    ensures injective { Injective }
    ensures bounded { Bounded }
    ensures onto { Onto }
    ensures inverse { Inverse }
{}

/// Going down from a prefix to the one of a number, bit by bit. It is cited by a call, since an answer that cites the lemma
/// hides from a planted edit of the loop where it is refused.
fn descent()
    ensures descends { Descends }
    ensures ends { Ends }
{}

impl Prefix {
    /// The place among all prefixes, from 0.
    #[tactic(auto, using(crate::proofs::Order::numbered))]
    pub fn number(&self) -> u32
        ensures value { result ≡ number (meant self.now) }
        ensures bound { result < count }
    {
        let bits = self.address >> 8;
        2 * bits + self.length as u32 - bits.count_ones()
    }

    /// The prefix with one bit more.
    fn longer(self, one: bool) -> Prefix
        requires { self.length < 24 }
        ensures { meant result ≡ record { address = self.address + (if one then 2 ^ (31 - self.length) else 0); length = self.length + 1 } }
    {
        let bit = if one { 1 << (31 - self.length) } else { 0 };
        Prefix {
            address: self.address + bit,
            length: self.length + 1,
        }
    }

    /// The prefix of that number, if there is one.
    pub fn from_number(n: u32) -> Option<Prefix>
        ensures { MatchOption result (count ≤ n) (λ p. (n < count) × (meant p ≡ prefix_of n)) }
    {
        if n >= COUNT {
            return None;
        }
        descent();
        let mut prefix = Prefix::whole();
        let mut rest = n;
        for length in 0..24u8 {
            if rest == 0 {
                break;
            }
            // How many numbers come from here to the first prefix that goes on with a 1.
            let ahead = 1u32 << (24 - length);
            let one = rest >= ahead;
            rest -= if one { ahead } else { 1 };
            prefix = prefix.longer(one);
        }
        Some(prefix)
    }
}
