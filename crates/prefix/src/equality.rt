//! When two prefixes are one.
ghost use Rattle.std.specs.Prelude.{◌==◌};
ghost use Rattle.std.proofs.Common.{rules};
ghost use Rattle.std.specs.Cmp.Rules.{comparing};
ghost use Rattle.std.specs.Ordering.{eq_of_both, on};

use crate::Prefix;

impl PartialEq for Prefix {
    ghost eq = { eq_of_both (on (λ p. p.address) ◌==◌) (on (λ p. p.length) ◌==◌) };

    ghost laws = { Prim.search (comparing, rules) };

    fn eq(&self, other: &Prefix) -> bool {
        self.address == other.address && self.length == other.length
    }
}
