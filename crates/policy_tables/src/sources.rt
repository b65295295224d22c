//! The policies of a text as those of the server.
ghost use Rattle.policy_tables.specs.Meant.{content_of};
ghost use Rattle.policy_tables.specs.Texts.{policy_for};
ghost use Rattle.policy_tables.specs.declared.Direction.TheVariants.{Export, Import};

use crate::{Direction, Policies};
use policy::Policy;
use selection::PolicySource;

impl PolicySource for Policies {
    ghost imports = { λ p i. policy_for (content_of p) Import i };

    ghost exports = { λ p i. policy_for (content_of p) Export i };

    fn import_policy(&self, peer: u8) -> Policy<'_> {
        self.policy(Direction::Import, peer)
    }

    fn export_policy(&self, peer: u8) -> Policy<'_> {
        self.policy(Direction::Export, peer)
    }
}
