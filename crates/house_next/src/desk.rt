//! The server under its settings, and what is told of it.
use crate::reports::{report_down, report_message, report_text, report_up};
use crate::writer::FrameWriter;
use frame::event::Event;
use frame::settings::Settings;
use house_parts::Inlet;
use intake::turns::Step;
use message::Peer;
use session::Phase;
use speaker::Speaker;
use std::io;
use std::io::{Read, Write};
use table::Table;

/// The most peers that there are.
const MOST_PEERS: usize = 64;

/// The server, its settings, and how much is told.
#[derive(Drop)]
pub struct Desk<'a, W: Write + Drop> {
    rt: &'a HostRuntime,
    settings: Settings,
    verbose: bool,
    speaker: Speaker<Table, FrameWriter<W>>,
}

impl<'a, W: Write + Drop> Desk<'a, W> {
    pub fn new(
        rt: &'a HostRuntime,
        settings: Settings,
        verbose: bool,
        speaker: Speaker<Table, FrameWriter<W>>,
    ) -> Desk<'a, W> {
        Desk {
            rt,
            settings,
            verbose,
            speaker,
        }
    }

    /// Answers each event before it waits for the next byte.
    pub fn serve<R: Read + Drop>(mut self, inlet: &mut Inlet<'_, R>) -> io::Result<()> {
        for _ in 0..u64::MAX {
            match inlet.next() {
                Step::Settings | Step::Refused { .. } => {}
                Step::Event { event } => self.answer(event),
                Step::More => {
                    self.speaker.flush();
                    if self.speaker.output().is_broken() {
                        return Err(io::Error::from(io::ErrorKind::BrokenPipe));
                    }
                    if !inlet.fill()? {
                        break;
                    }
                }
                Step::Unreadable { .. } => {
                    self.speaker.flush();
                    break;
                }
            }
        }
        Ok(())
    }

    /// Hands an event to the server, and tells what there is to tell.
    fn answer(&mut self, event: Event<'_>) {
        if self.verbose {
            let before = self.phases();
            self.hand_in(event);
            self.tell_sessions(&before, event);
        } else {
            self.hand_in(event);
        }
    }

    /// Hands an event to the server, and tells of a policy text that was refused.
    fn hand_in(&mut self, event: Event<'_>) {
        let refusal = self.speaker.handle(event);
        if let (Some(refusal), Event::PolicyText { text }) = (refusal, event) {
            report_text(self.rt, &refusal, text);
        }
    }

    /// How far the session of each peer has come up.
    fn phases(&self) -> [Phase; MOST_PEERS] {
        let mut phases = [Phase::Down; MOST_PEERS];
        for (phase, peer) in phases.iter_mut().zip(0u8..) {
            *phase = self.speaker.phase(peer);
        }
        phases
    }

    /// Tells of each session that came up or went down.
    fn tell_sessions(&self, before: &[Phase; MOST_PEERS], event: Event<'_>) {
        for (was, peer) in before.iter().zip(0u8..) {
            match (*was, self.speaker.phase(peer)) {
                (Phase::OpenSent, Phase::Established) => report_up(self.rt, peer),
                (Phase::OpenSent | Phase::Established, Phase::Down) => {
                    self.tell_down(peer, *was, event);
                }
                _ => {}
            }
        }
    }

    /// Tells why a session went down.
    fn tell_down(&self, peer: u8, phase: Phase, event: Event<'_>) {
        match event {
            Event::Message { bytes, .. } => {
                if let Some(member) = self.settings.peer(peer) {
                    let member = Peer {
                        asn: member.asn,
                        address: member.address,
                    };
                    report_message(self.rt, peer, phase, member, bytes);
                }
            }
            Event::Tick => report_down(self.rt, peer, "nothing came for 90 seconds, fault 13"),
            Event::Down { .. } => report_down(self.rt, peer, "the connection is lost"),
            Event::Up { .. } | Event::PolicyText { .. } => {}
        }
    }
}
