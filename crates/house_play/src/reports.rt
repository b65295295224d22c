//! What is refused, in words.
use frame::event::{Defect, Refusal};
use house_parts::FaultLine;

/// The line of a frame that was passed over.
pub fn refusal_line(refusal: Refusal) -> FaultLine<&'static str> {
    let words = match refusal {
        Refusal::NoSettings => "a frame before settings",
        Refusal::SettingsAgain => "settings a second time",
        Refusal::TooManyPeers => "settings with more than 64 peers",
        Refusal::TextTooLong => "a policy text of more than 65,536 bytes",
    };
    FaultLine {
        fault: refusal.fault(),
        words,
    }
}

/// The line of a frame that cannot be read.
pub fn defect_line(defect: Defect) -> FaultLine<&'static str> {
    let words = match defect {
        Defect::UnknownKind => "a frame of an unknown kind",
        Defect::UnknownPeer => "a frame of an unknown peer",
        Defect::UnknownState => "a session that is neither up nor down",
        Defect::Cut => "the input ends inside a frame",
    };
    FaultLine {
        fault: defect.fault(),
        words,
    }
}
