//! One call for one event in bytes.
ghost use Rattle.std.specs.Prelude.{◌≡◌, ℕ, ◌^◌, ◌<◌, [], None, MatchOption};
ghost use Rattle.frame.specs.Frame.{happening};
ghost use Rattle.frame.specs.Settings.{exchange};
ghost use Rattle.outbox.specs.Outbox.{Flushes, box_of};
ghost use Rattle.policy_tables.specs.Meant.{content_of};
ghost use Rattle.policy_tables.specs.Texts.{nothing};
ghost use Rattle.rib.specs.Received.{most_peers};
ghost use Rattle.speaker.specs.Serves.{Promised, Stands};
ghost use Rattle.speaker.specs.State.{session_in, state_of};
ghost use Rattle.speaker.specs.Texts.{AnswersTo};
ghost use Rattle.speaker_model.specs.World.{count_of};

use crate::Speaker;
use configuration::TextRefusal;
use frame::event::Event;
use frame::settings::Settings;
use outbox::{Outbox, Output};
use policy_tables::Policies;
use rib::Rib;
use server::Server;
use session::Phase;
use sessions::Sessions;

impl<R: Rib + Drop, O: Output + Drop> Speaker<R, O> {
    /// A server under these settings, with no session up. It stands before any frame if the table is empty and nobody has a policy.
    pub fn new(
        settings: Settings,
        rib: R,
        policies: Policies,
        spare: Policies,
        output: O,
    ) -> Option<Speaker<R, O>>
        ensures { MatchOption result (most_peers < count_of (exchange settings)) (λ s. (exchange s.settings ≡ exchange settings) × (s.outbox.output ≡ output) × (((i p : ℕ) → R.Rib.received rib i p ≡ None) → content_of policies ≡ nothing → Stands (state_of R.Rib.received s) [])) }
    {
        let own_asn = settings.own_asn();
        let server = Server::new(own_asn, settings.peer_count(), policies, rib).ok()?;
        Some(Speaker {
            settings,
            sessions: Sessions::new(),
            server,
            outbox: Outbox::new(output, own_asn, settings.own_address()),
            spare,
        })
    }
}

impl<R: Rib, O: Output> Speaker<R, O> {
    /// Does all that an event asks for. The answer is why a policy text was refused, if the event is one that was.
    pub fn handle(&mut self, event: Event<'_>) -> Option<TextRefusal>
        ensures promise { Promised O.Output.writes (happening event.entry) (state_of R.Rib.received self.old) (state_of R.Rib.received self.new) }
        ensures answer { AnswersTo (count_of (exchange self.old.settings)) (happening event.entry) result }
    {
        self.fit_law();
        self.outbox.begin();
        let refusal = self.step(event);
        self.finish(event);
        refusal
    }

    /// Hands on what the output holds back.
    pub fn flush(&mut self)
        ensures same { (self.new.settings ≡ self.old.settings) × (self.new.sessions ≡ self.old.sessions) × (self.new.server ≡ self.old.server) × (self.new.spare ≡ self.old.spare) }
        ensures flushes { Flushes O.Output.writes (box_of self.old.outbox) (box_of self.new.outbox) }
    {
        self.outbox.flush();
    }

    /// Where the frames go.
    pub fn output(&self) -> &O
        ensures { result.now ≡ self.now.outbox.output }
    {
        self.outbox.output()
    }

    /// How far the session of a peer has come up.
    pub fn phase(&self, peer: u8) -> Phase
        ensures { result ≡ (session_in self.now peer).phase }
    {
        self.sessions.get(peer).phase()
    }

    /// The own network and address have 32 bits. It is called, since only a function that reads a number knows its range.
    fn fit_law(&self)
        ensures { ((exchange self.now.settings).asn < 2 ^ 32) × ((exchange self.now.settings).address < 2 ^ 32) }
    {
        let _ = (self.settings.own_asn(), self.settings.own_address());
    }
}
