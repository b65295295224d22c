//! What is told on standard error. A line that cannot be written stops nothing.
use configuration::TextRefusal;
use house_parts::FaultLine;
use message::{Message, Peer, State, read};
use session::Phase;

/// Tells of a policy text that was refused.
pub fn report_text(rt: &HostRuntime, refusal: &TextRefusal, text: &[u8]) {
    let line = FaultLine {
        fault: refusal.fault(),
        words: refusal.line(text),
    };
    let _ = eprintln!(rt; "{line}");
}

/// Tells of a session that came up.
pub fn report_up(rt: &HostRuntime, peer: u8) {
    let _ = eprintln!(rt; "peer {peer}: session up");
}

/// Tells of a session that went down, and why.
pub fn report_down(rt: &HostRuntime, peer: u8, why: &str) {
    let _ = eprintln!(rt; "peer {peer}: session down: {why}");
}

/// Tells of a session that went down by a message of its peer, and why.
pub fn report_message(rt: &HostRuntime, peer: u8, phase: Phase, member: Peer, message: &[u8]) {
    let state = match phase {
        Phase::Established => State::Established,
        Phase::Down | Phase::OpenSent => State::OpenSent,
    };
    match read(state, member, message) {
        Err(fault) => {
            let code = u8::from(fault);
            let _ = eprintln!(rt; "peer {peer}: session down: fault {code}");
        }
        Ok(Message::Notification(code, subcode)) => {
            let _ = eprintln!(rt;
                "peer {peer}: session down: NOTIFICATION {code} {subcode} from the peer"
            );
        }
        Ok(_) => report_down(rt, peer, "no room, fault 9"),
    }
}
