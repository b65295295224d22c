//! A text is read beside the policies in force, and takes their place only when it is whole.
ghost use Rattle.std.specs.Prelude.{◌≡◌, IfOk, OnErr};
ghost use Rattle.configuration.specs.Meant.{TakesPlace, behind_text, in_force};
ghost use Rattle.policy.specs.Meant.{policy_of, verdict_of};
ghost use Rattle.policy.specs.Policy.{verdict};
ghost use Rattle.policy_tables.specs.Texts.{meaning, nothing, policy_for};
ghost use Rattle.route.specs.Meant.{route_of};

use crate::{Configuration, TextRefusal};
use policy::{Policy, Verdict};
use policy_tables::{Direction, Policies};
use route::Route;
use std::alloc::{AllocError, Global};

impl Configuration {
    /// No policies, as before the first text; all memory that texts need is taken here.
    pub fn new(heap: Global) -> Result<Configuration, AllocError>
        ensures { IfOk result (λ c. in_force c ≡ nothing) }
    {
        let active = Policies::new(heap)?;
        let spare = Policies::new(heap)?;
        Ok(Configuration { active, spare })
    }

    /// Puts the policies of the text in force; a text that is refused leaves those in force that were.
    pub fn read(&mut self, peers: u8, text: &[u8]) -> Result<(), TextRefusal>
        ensures read { TakesPlace (meaning peers text.now) text.now (in_force self.new) result }
        ensures kept { OnErr result (self.new.active ≡ self.old.active) }
        ensures after { in_force self.new ≡ behind_text (meaning peers text.now) (in_force self.old) }
    {
        let read = self.spare.read(peers, text);
        read.map_err(|refusal| TextRefusal::of(text, refusal))?;
        std::mem::swap(&mut self.active, &mut self.spare);
        Ok(())
    }

    /// The peer's policy of that direction; one that the text does not name has no clauses.
    pub fn policy(&self, direction: Direction, peer: u8) -> Policy<'_>
        ensures { policy_of result ≡ policy_for (in_force self.now) direction peer }
    {
        self.active.policy(direction, peer)
    }

    /// What the peer's policy of that direction makes of the route.
    pub fn evaluate(&self, direction: Direction, peer: u8, route: &mut Route) -> Verdict
        ensures { verdict_of result (route_of route.new) ≡ verdict (policy_for (in_force self.now) direction peer) (route_of route.old) }
    {
        self.policy(direction, peer).evaluate(route)
    }

    /// Reads the text, and says what the peer's policy of that direction then makes of the route: by the clauses of the text, or by those in force before if the text is refused.
    pub fn evaluate_by_text(
        &mut self,
        peers: u8,
        text: &[u8],
        direction: Direction,
        peer: u8,
        route: &mut Route,
    ) -> Verdict
        ensures { verdict_of result (route_of route.new) ≡ verdict (policy_for (behind_text (meaning peers text.now) (in_force self.old)) direction peer) (route_of route.old) }
    {
        let _ = self.read(peers, text);
        self.evaluate(direction, peer, route)
    }
}
