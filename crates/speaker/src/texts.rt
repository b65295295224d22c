//! Policy texts.
ghost use Rattle.frame.specs.Frame.{policy_text};
ghost use Rattle.frame.specs.Settings.{exchange};
ghost use Rattle.policy_tables.specs.Texts.{meaning};
ghost use Rattle.speaker.specs.State.{Handles};
ghost use Rattle.speaker.specs.Texts.{Answers};
ghost use Rattle.speaker_model.specs.World.{count_of};

use crate::Speaker;
use configuration::TextRefusal;
use outbox::Output;
use rib::Rib;

impl<R: Rib, O: Output> Speaker<R, O> {
    /// Puts the policies of a text in force. A text that is refused leaves those in force that were.
    pub(crate) fn put_text(&mut self, text: &[u8]) -> Option<TextRefusal>
        ensures step { Handles R.Rib.received O.Output.writes (policy_text text.now) self.old self.new }
        ensures answer { Answers (meaning (count_of (exchange self.old.settings)) text.now) text.now result }
    {
        match self.spare.read(self.settings.peer_count(), text) {
            Ok(()) => {
                self.server.put_in_force(&mut self.outbox, &mut self.spare);
                None
            }
            Err(refusal) => Some(TextRefusal::of(text, refusal)),
        }
    }
}
