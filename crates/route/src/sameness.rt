//! When two routes are the same. Paths and communities are compared by hand: what their memory holds besides means nothing.
ghost use Rattle.std.specs.Prelude.{◌==◌};
ghost use Rattle.std.specs.Cmp.Lexicographic.{pointwise};
ghost use Rattle.std.proofs.Common.{rules};
ghost use Rattle.std.specs.Cmp.Rules.{comparing};
ghost use Rattle.std.specs.Ordering.{on};
ghost use Rattle.route.specs.Meant.{asns_of, communities_of};

use crate::{Communities, Path};

impl PartialEq for Path {
    ghost eq = { on asns_of (pointwise ◌==◌) };

    ghost laws = { Prim.search (comparing, rules) };

    fn eq(&self, other: &Path) -> bool {
        self.asns() == other.asns()
    }
}

impl Eq for Path {
    ghost laws = { Prim.search (comparing, rules) };
}

impl PartialEq for Communities {
    ghost eq = { on communities_of (pointwise ◌==◌) };

    ghost laws = { Prim.search (comparing, rules) };

    fn eq(&self, other: &Communities) -> bool {
        self.as_slice() == other.as_slice()
    }
}

impl Eq for Communities {
    ghost laws = { Prim.search (comparing, rules) };
}
