//! One play: events go in, and what goes out is shown.
use crate::outlet::Outlet;
use crate::reports::{defect_line, refusal_line};
use anyhow::Context;
use frame::event::Event;
use frame_show::show;
use house_parts::FaultLine;
use intake::turns::{Intake, Step};
use rib::Rib;
use speaker::Speaker;
use std::fmt;
use table::Table;
use wire::{cut, skip};

/// How much of a play is shown: all events from a place on, with the ticks since the last event that was shown.
#[derive(Drop)]
pub struct Hall<'a> {
    rt: &'a HostRuntime,
    intake: Intake,
    speaker: Speaker<Table, Outlet>,
    /// How many bytes are left at that place.
    shown: usize,
    ticks: u32,
}

impl<'a> Hall<'a> {
    pub fn new(
        rt: &'a HostRuntime,
        intake: Intake,
        speaker: Speaker<Table, Outlet>,
        shown: usize,
    ) -> Hall<'a> {
        Hall {
            rt,
            intake,
            speaker,
            shown,
            ticks: 0,
        }
    }

    /// Plays all frames, to the end or to one that cannot be read.
    pub fn play(mut self, bytes: &[u8]) -> anyhow::Result<()> {
        let mut rest = bytes;
        for _ in 0..u64::MAX {
            let turn = self.intake.next(rest);
            let after = skip(rest, turn.taken);
            match turn.step {
                Step::Settings => {}
                Step::Event { event } => self.hand_in(event, rest, turn.taken)?,
                Step::Refused { refusal } => self.show_line("", refusal_line(refusal))?,
                Step::More => {
                    self.show_ticks()?;
                    if let Some(defect) = self.intake.end(after) {
                        self.show_line("", defect_line(defect))?;
                    }
                    break;
                }
                Step::Unreadable { defect } => {
                    self.show_line("", defect_line(defect))?;
                    break;
                }
            }
            rest = after;
        }
        Ok(())
    }

    /// Hands in an event, the first so many of these bytes, and shows it and what goes out.
    fn hand_in(&mut self, event: Event<'_>, rest: &[u8], size: usize) -> anyhow::Result<()> {
        let before = self.sent()?.len();
        let refusal = self.speaker.handle(event);
        let is_silent = self.sent()?.len() == before;
        if rest.len() > self.shown {
            return Ok(());
        }
        self.show_event(event, rest, size, is_silent)?;
        if let (Some(refusal), Event::PolicyText { text }) = (refusal, event) {
            let line = FaultLine {
                fault: refusal.fault(),
                words: refusal.line(text),
            };
            self.show_line("", line)?;
        }
        self.show_frames("", skip(self.sent()?, before))
    }

    /// All that went out so far.
    fn sent(&self) -> anyhow::Result<&[u8]> {
        self.speaker
            .output()
            .bytes()
            .context("there is no memory for what goes out")
    }

    /// Shows an event; ticks at which nothing goes out are only counted.
    fn show_event(
        &mut self,
        event: Event<'_>,
        rest: &[u8],
        size: usize,
        is_silent: bool,
    ) -> anyhow::Result<()> {
        if let Event::Tick = event {
            self.ticks = self.ticks.saturating_add(1);
            if is_silent {
                return Ok(());
            }
            return self.show_ticks();
        }
        self.show_ticks()?;
        match cut(rest, size) {
            Some((frame, _)) => self.show_frames("> ", frame),
            None => Ok(()),
        }
    }

    /// Shows how many ticks went by.
    fn show_ticks(&mut self) -> anyhow::Result<()> {
        let ticks = self.ticks;
        self.ticks = 0;
        if ticks == 0 {
            return Ok(());
        }
        self.show_line("> ticks ", ticks)
    }

    fn show_frames(&self, mark: &str, bytes: &[u8]) -> anyhow::Result<()> {
        let mut words = String::new(self.rt.alloc());
        show(&mut words, bytes)?;
        for line in words.as_str().lines() {
            self.show_line(mark, line)?;
        }
        Ok(())
    }

    fn show_line<T: fmt::Display + Drop>(&self, mark: &str, line: T) -> anyhow::Result<()> {
        let rt = self.rt;
        println!(rt; "{mark}{line}")?;
        Ok(())
    }
}
