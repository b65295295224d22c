//! Lines that tell of faults.
use fault::Fault;
use frame::event::{Defect, Refusal};
use std::fmt;

/// The line of a fault: its number, and what happened.
#[derive(Clone, Copy)]
pub struct FaultLine<T> {
    pub fault: Fault,
    pub words: T,
}

impl<T: fmt::Display> fmt::Display for FaultLine<T> {
    fn fmt<W: fmt::Write>(&self, f: &mut fmt::Formatter<W>) -> fmt::Result {
        let code = u8::from(self.fault);
        write!(f, "fault {code}: {}", self.words)
    }
}

/// The line of a frame that is passed over.
impl From<Refusal> for FaultLine<&'static str> {
    fn from(refusal: Refusal) -> FaultLine<&'static str> {
        let words = match refusal {
            Refusal::NoSettings => "a frame before settings is passed over",
            Refusal::SettingsAgain => "settings a second time are passed over",
            Refusal::TooManyPeers => "settings with more than 64 peers are passed over",
            Refusal::TextTooLong => "a policy text of more than 65,536 bytes is passed over",
        };
        FaultLine {
            fault: refusal.fault(),
            words,
        }
    }
}

/// The line of a frame that cannot be read.
impl From<Defect> for FaultLine<&'static str> {
    fn from(defect: Defect) -> FaultLine<&'static str> {
        let words = match defect {
            Defect::UnknownKind => "a frame of an unknown kind cannot be read",
            Defect::UnknownPeer => "a frame of a peer that the settings do not have cannot be read",
            Defect::UnknownState => "a session frame that says neither up nor down cannot be read",
            Defect::Cut => "the input ends inside a frame",
        };
        FaultLine {
            fault: defect.fault(),
            words,
        }
    }
}
