//! Where the policies of the peers come from.
ghost use Rattle.std.specs.Prelude.{◌≡◌, ℕ};
ghost use Rattle.policy.specs.Meant.{policy_of};
ghost use Rattle.policy.specs.Policy.{Policy as Clauses};

use policy::Policy;

pub trait PolicySource {
    ghost imports: { Self → ℕ → Clauses };

    ghost exports: { Self → ℕ → Clauses };

    fn import_policy(&self, peer: u8) -> Policy<'_>
        ensures { policy_of result ≡ imports self.now peer };

    fn export_policy(&self, peer: u8) -> Policy<'_>
        ensures { policy_of result ≡ exports self.now peer };
}
