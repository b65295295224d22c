//! The steps of one event.
ghost use Rattle.std.specs.Prelude.{◌≡◌};
ghost use Rattle.frame.specs.Frame.{happening};
ghost use Rattle.frame.specs.Settings.{exchange};
ghost use Rattle.speaker.specs.Serves.{Finishes};
ghost use Rattle.speaker.specs.State.{Handles, state_of};
ghost use Rattle.speaker.specs.Texts.{AnswersTo};
ghost use Rattle.speaker_model.specs.World.{count_of, is_tick};

use crate::Speaker;
use crate::ticking::keep_alive;
use configuration::TextRefusal;
use frame::event::Event;
use outbox::Output;
use rib::Rib;

impl<R: Rib, O: Output> Speaker<R, O> {
    /// The event's own step.
    pub(crate) fn step(&mut self, event: Event<'_>) -> Option<TextRefusal>
        ensures step { Handles R.Rib.received O.Output.writes (happening event.entry) self.old self.new }
        ensures answer { AnswersTo (count_of (exchange self.old.settings)) (happening event.entry) result }
    {
        match event {
            Event::Message { peer, bytes } => {
                self.receive(peer, bytes);
                None
            }
            Event::Up { peer } => {
                self.connect(peer);
                None
            }
            Event::Down { peer } => {
                self.lose(peer);
                None
            }
            Event::Tick => {
                self.tick();
                None
            }
            Event::PolicyText { text } => self.put_text(text),
        }
    }

    /// The clocks of what was sent begin anew; at a tick the keepalives go that are still due.
    pub(crate) fn finish(&mut self, event: Event<'_>)
        ensures { Finishes O.Output.writes (happening event.entry) (state_of R.Rib.received self.old) (state_of R.Rib.received self.new) }
    {
        // Called, since the length of a set's row is known only in its own crate.
        self.outbox.reached().outside_law();
        self.sessions.sent_to(self.outbox.reached());
        if is_tick(event) {
            keep_alive(&mut self.outbox, &self.sessions, self.settings.peer_count());
            self.sessions.sent_to(self.outbox.reached());
        }
    }
}

/// Whether a second has passed.
fn is_tick(event: Event<'_>) -> bool
    ensures { result ≡ is_tick (happening event.entry) }
{
    matches!(event, Event::Tick)
}
