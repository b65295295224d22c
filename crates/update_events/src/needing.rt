//! How much room an UPDATE needs.
ghost use Rattle.std.specs.Prelude.{◌≡◌};
ghost use Rattle.prefix.specs.Meant.{meant};
ghost use Rattle.prefix.specs.Prefix.{number};
ghost use Rattle.update_events.specs.Saying.{lacks, needed_by, needs_for};

use crate::Saying;
use prefix::Prefix;
use rib::Rib;
use update::Content;

/// How many routes there is room for.
const CAPACITY: usize = 16_384;

impl Saying<'_> {
    /// Whether what the peer says needs more room than is left. What it withdraws frees none for it, and a route in place of one needs none.
    pub fn lacks_room<R: Rib>(&self, rib: &R) -> bool
        ensures { result ≡ lacks self.now (R.Rib.received rib.now) }
    {
        let kept = rib.len();
        kept > CAPACITY || self.needed(rib) > CAPACITY - kept
    }

    /// How many places what the peer says needs.
    fn needed<R: Rib>(&self, rib: &R) -> usize
        ensures { result ≡ needed_by self.now (R.Rib.received rib.now) }
    {
        let mut places = 0;
        let mut from = 0;
        while let Some(prefix) = self.next_named(from) {
            if self.needs_place(rib, prefix) {
                places += 1;
            }
            from = prefix.number() + 1;
        }
        places
    }

    /// Whether the prefix needs a place: a route is announced of it, and the peer has none.
    #[tactic(auto, unfolding(crate::specs::Words::needs))]
    fn needs_place<R: Rib>(&self, rib: &R, prefix: Prefix) -> bool
        ensures { result ≡ needs_for self.now (R.Rib.received rib.now) (number (meant prefix)) }
    {
        matches!(self.content, Content::Announces(_))
            && self.announces(prefix)
            && rib.get(self.peer, prefix).is_none()
    }
}
