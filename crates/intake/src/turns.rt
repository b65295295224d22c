//! What is next in an input, and how far it is read.
ghost use Rattle.std.specs.Prelude.{◌≡◌, Some};
ghost use Rattle.std.specs.Option.{option_map};
ghost use Rattle.frame.specs.Frame.{meant};
ghost use Rattle.frame.specs.Settings.{exchange};
ghost use Rattle.intake.specs.Course.{Continues, ahead_of};
ghost use Rattle.intake.specs.State.{state_of, turn_of, turn, start, settings_of, settled, entry_of, pass_over, map_outcome, reads, at_end};

use frame::event::{Defect, Event, Reading, Refusal, Unread, Whole};
use frame::reading::{read_event, read_settings};
use frame::settings::Settings;

/// A frame that is being passed over: why, and how many of its bytes are still to come.
#[derive(Clone, Copy)]
struct Passing {
    refusal: Refusal,
    left: usize,
}

/// How far an input is read: the settings in force, and the frame that is being passed over.
#[derive(Clone, Copy)]
pub struct Intake {
    settings: Option<Settings>,
    passing: Option<Passing>,
}

/// What is next in an input.
#[derive(Clone, Copy)]
pub enum Step<'a> {
    /// Settings are in force from here on.
    Settings,
    /// An event.
    Event { event: Event<'a> },
    /// A frame was passed over, to its last byte.
    Refused { refusal: Refusal },
    /// Nothing, until more bytes come.
    More,
    /// A frame that cannot be read. Nothing more is read.
    Unreadable { defect: Defect },
}

/// What is next, and how many of the bytes at hand are done with then.
#[derive(Clone, Copy)]
pub struct Turn<'a> {
    pub step: Step<'a>,
    pub taken: usize,
}

impl Intake {
    /// An input of which nothing is read.
    pub fn new() -> Intake
        ensures { state_of result ≡ start }
    {
        Intake {
            settings: None,
            passing: None,
        }
    }

    /// The settings in force.
    pub fn settings(&self) -> Option<Settings>
        ensures { option_map exchange result ≡ settings_of self.now }
    {
        self.settings
    }

    /// What is next in the input, of which these bytes are at hand.
    pub fn next<'a>(&mut self, bytes: &'a [u8]) -> Turn<'a>
        ensures value { turn_of self.new result ≡ turn (state_of self.old) bytes.now }
        ensures course { Continues (ahead_of (state_of self.old)) bytes.now (turn_of self.new result) }
    {
        self.turn(bytes)
    }

    /// What is wrong if the input ends here, where `next` waits for more: that it ends inside a frame.
    pub fn end(&self, bytes: &[u8]) -> Option<Defect>
        ensures { result ≡ at_end (state_of self.now) bytes.now }
    {
        if self.passing.is_some() || !bytes.is_empty() {
            Some(Defect::Cut)
        } else {
            None
        }
    }

    /// One turn.
    fn turn<'a>(&mut self, bytes: &'a [u8]) -> Turn<'a>
        ensures { turn_of self.new result ≡ turn (state_of self.old) bytes.now }
    {
        if let Some(Passing { refusal, left }) = self.passing {
            return self.pass_over(refusal, left, bytes);
        }
        match self.read(bytes) {
            Ok(Whole { content, size }) => Turn {
                step: content,
                taken: size,
            },
            Err(Unread::Refused { refusal, size }) => self.pass_over(refusal, size, bytes),
            Err(Unread::More) => Turn {
                step: Step::More,
                taken: 0,
            },
            Err(Unread::Unreadable { defect }) => Turn {
                step: Step::Unreadable { defect },
                taken: 0,
            },
        }
    }

    /// What the bytes begin with, by the settings in force. Settings that come are in force from here on.
    fn read<'a>(&mut self, bytes: &'a [u8]) -> Reading<Step<'a>>
        ensures passing { self.new.passing ≡ self.old.passing }
        ensures settings { settings_of self.new ≡ settled (settings_of self.old) (reads (settings_of self.old) bytes.now) }
        ensures reading { meant (entry_of self.new) result ≡ map_outcome Some (reads (settings_of self.old) bytes.now) }
    {
        let Some(settings) = &self.settings else {
            let Whole { content, size } = read_settings(bytes)?;
            self.settings = Some(content);
            return Ok(Whole {
                content: Step::Settings,
                size,
            });
        };
        let Whole { content, size } = read_event(settings, bytes)?;
        Ok(Whole {
            content: Step::Event { event: content },
            size,
        })
    }

    /// Passes over a frame that has `left` bytes still to come.
    fn pass_over<'a>(&mut self, refusal: Refusal, left: usize, bytes: &'a [u8]) -> Turn<'a>
        ensures { turn_of self.new result ≡ pass_over (settings_of self.old) refusal left bytes.now }
    {
        if bytes.len() < left {
            self.passing = Some(Passing {
                refusal,
                left: left - bytes.len(),
            });
            return Turn {
                step: Step::More,
                taken: bytes.len(),
            };
        }
        self.passing = None;
        Turn {
            step: Step::Refused { refusal },
            taken: left,
        }
    }
}
