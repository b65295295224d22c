//! Lists of prefixes.
ghost use Rattle.std.specs.Prelude.{◌≡◌, ◌<◌, [], ◌∷◌, ◌++◌, map, length, MatchResult};
ghost use Rattle.policy.specs.Meant.{listed_of};
ghost use Rattle.std.specs.List.{list_any};
ghost use Rattle.prefix.specs.Meant.{meant};
ghost use Rattle.prefix.specs.Prefix.{same, within};

use crate::PrefixList;
use crate::starts::lower_starts;
use prefix::Prefix;
use rows::{Full, Row};

impl PrefixList {
    pub fn new() -> PrefixList
        ensures { listed_of result ≡ [] }
    {
        PrefixList {
            prefixes: Row::new(Prefix::whole()),
            starts: [64; 1024],
        }
    }

    /// One prefix more; where there are 64, all is left as it is.
    #[tactic(auto, using(crate::proofs::Beginnings::push))]
    pub fn push(&mut self, prefix: Prefix) -> Result<(), Full>
        ensures { MatchResult result (λ _. (length (listed_of self.old) < 64) × (listed_of self.new ≡ listed_of self.old ++ (prefix ∷ []))) (λ _. (length (listed_of self.old) ≡ 64) × (listed_of self.new ≡ listed_of self.old)) }
    {
        let count = self.prefixes.len();
        self.prefixes.push(prefix)?;
        lower_starts(&mut self.starts, &prefix, count as u8);
        Ok(())
    }

    /// The prefixes of the list.
    pub fn as_slice(&self) -> &[Prefix]
        ensures { result.now ≡ listed_of self.now }
    {
        self.prefixes.as_slice()
    }
}

/// Whether the prefix is one of the row.
pub fn is_listed(prefix: &Prefix, list: &[Prefix]) -> bool
    ensures { result ≡ list_any (λ q. same (meant prefix.now) (meant q)) list.now }
{
    list.iter().any(|listed| prefix == listed)
}

/// Whether the prefix is within one of the row.
pub fn is_covered(prefix: &Prefix, list: &[Prefix]) -> bool
    ensures { result ≡ list_any (λ q. within (meant prefix.now) (meant q)) list.now }
{
    list.iter().any(|listed| prefix.is_within(listed))
}
