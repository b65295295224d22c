//! The input of a program.
ghost use Rattle.std.specs.Prelude.{◌≡◌, ℕ, [], drop};
ghost use Rattle.std.specs.Option.{option_map};
ghost use Rattle.frame.specs.Settings.{exchange};
ghost use Rattle.intake.specs.Buffer.{at_hand};
ghost use Rattle.intake.specs.declared.turns.Intake.{Intake};
ghost use Rattle.intake.specs.State.{settings_of, start, state_of, turn, turn_of};

use crate::FaultLine;
use frame::settings::Settings;
use intake::buffer::Buffer;
use intake::turns::{Intake, Step};
use std::io;
use std::io::Read;

/// Where frames come from. What is refused is told on standard error; a line that cannot be written stops nothing.
#[derive(Drop)]
pub struct Inlet<'a, R: Read + Drop> {
    rt: &'a HostRuntime,
    source: R,
    buffer: Buffer,
    intake: Intake,
    /// How many of the bytes at hand are done with.
    taken: usize,
}

impl<'a, R: Read + Drop> Inlet<'a, R> {
    /// An input of which nothing is read.
    pub fn new(rt: &'a HostRuntime, source: R) -> Inlet<'a, R>
        ensures { (state_of result.intake ≡ start) × (at_hand result.buffer ≡ []) }
    {
        Inlet {
            rt,
            source,
            buffer: Buffer::new(),
            intake: Intake::new(),
            taken: 0,
        }
    }

    /// The settings in force.
    pub fn settings(&self) -> Option<Settings>
        ensures { option_map exchange result ≡ settings_of self.now.intake }
    {
        self.intake.settings()
    }

    /// What is next. What is passed over or cannot be read is told.
    pub fn next(&mut self) -> Step<'_>
        ensures { (i : Intake) × (n : ℕ) × (turn_of i (record { step = result; taken = n }) ≡ turn (state_of self.old.intake) (drop self.old.taken (at_hand self.old.buffer))) }
    {
        self.buffer.take(self.taken);
        let step = advance(&mut self.intake, self.buffer.at_hand(), &mut self.taken);
        match step {
            Step::Refused { refusal } => tell(self.rt, FaultLine::from(refusal)),
            Step::Unreadable { defect } => tell(self.rt, FaultLine::from(defect)),
            Step::Settings | Step::Event { .. } | Step::More => {}
        }
        step
    }

    /// Waits for more bytes. False where the input has ended: there is no more to do then, and it is told if that is
    /// inside a frame.
    pub fn fill(&mut self) -> io::Result<bool>
        ensures { (self.new.taken ≡ 0) × (state_of self.new.intake ≡ state_of self.old.intake) }
    {
        self.buffer.take(self.taken);
        self.taken = 0;
        if self.buffer.fill(&mut self.source)? > 0 {
            return Ok(true);
        }
        if let Some(defect) = self.intake.end(self.buffer.at_hand()) {
            tell(self.rt, FaultLine::from(defect));
        }
        Ok(false)
    }
}

/// What is next of these bytes, and how many of them are done with then.
fn advance<'a>(intake: &mut Intake, bytes: &'a [u8], taken: &mut usize) -> Step<'a>
    ensures { turn_of intake.new (record { step = result; taken = taken.new }) ≡ turn (state_of intake.old) bytes.now }
{
    let turn = intake.next(bytes);
    *taken = turn.taken;
    turn.step
}

/// Tells of a fault.
fn tell(rt: &HostRuntime, line: FaultLine<&'static str>) {
    let _ = eprintln!(rt; "{line}");
}
