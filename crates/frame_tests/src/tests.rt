use frame::event::{Defect, Event, Reading, Refusal, Unread, Whole};
use frame::reading::{read_event, read_settings};
use frame::settings::{Peer, Settings};
use intake::turns::{Intake, Step};
use std::alloc::{AllocError, Global};
use std::process::Abort;
use std::test::Fail;

/// What was read, with a frame's bytes by their length and the first of them.
#[derive(Clone, Copy, Debug, PartialEq)]
enum Seen {
    Settings,
    Message {
        peer: u8,
        length: usize,
        first: Option<u8>,
    },
    Up(u8),
    Down(u8),
    Tick,
    PolicyText {
        length: usize,
        first: Option<u8>,
    },
    Refused(Refusal),
    More,
    Unreadable(Defect),
}

/// What was read, where `shown` says what a whole frame is, and how many of the bytes count.
fn outcome<T: Drop, F: FnOnce(T) -> Seen>(reading: Reading<T>, shown: F) -> (Seen, usize)
    requires { F.IsAlwaysCallable shown }
{
    match reading {
        Ok(Whole { content, size }) => (shown(content), size),
        Err(Unread::Refused { refusal, size }) => (Seen::Refused(refusal), size),
        Err(Unread::More) => (Seen::More, 0),
        Err(Unread::Unreadable { defect }) => (Seen::Unreadable(defect), 0),
    }
}

/// What these bytes are read as before settings, and how many of them count.
fn before(bytes: &[u8]) -> (Seen, usize) {
    outcome(read_settings(bytes), |_| Seen::Settings)
}

fn shown(event: Event<'_>) -> Seen {
    match event {
        Event::Message { peer, bytes } => Seen::Message {
            peer,
            length: bytes.len(),
            first: bytes.first().copied(),
        },
        Event::Up { peer } => Seen::Up(peer),
        Event::Down { peer } => Seen::Down(peer),
        Event::Tick => Seen::Tick,
        Event::PolicyText { text } => Seen::PolicyText {
            length: text.len(),
            first: text.first().copied(),
        },
    }
}

/// The same under settings.
fn under(settings: &Settings, bytes: &[u8]) -> (Seen, usize) {
    outcome(read_event(settings, bytes), shown)
}

/// A settings frame with so many peers.
fn settings_frame(heap: Global, count: u8) -> Result<Vec<u8>, AllocError> {
    let mut frame = Vec::new(heap);
    frame.extend_from_slice(&[5, count, 1, 2, 3, 4, 10, 0, 0, 1])?;
    for i in 0..count {
        frame.extend_from_slice(&[0, 0, 1, i, 10, 0, 1, i])?;
    }
    Ok(frame)
}

/// A frame with a policy text of so many bytes.
fn text_frame(heap: Global, length: u32) -> Result<Vec<u8>, AllocError> {
    let [a, b, c, d] = length.to_be_bytes();
    let mut frame = Vec::new(heap);
    frame.extend_from_slice(&[4, a, b, c, d])?;
    frame.resize(5 + length as usize, b'#')?;
    Ok(frame)
}

/// Settings with so many peers, in force.
fn settings(heap: Global, count: u8) -> Result<Settings, Fail> {
    let frame = settings_frame(heap, count)?;
    match read_settings(frame.as_slice()) {
        Ok(Whole { content, size: _ }) => Ok(content),
        _ => Err(Fail::new("no settings")),
    }
}

#[test]
fn settings_are_read(rt: HostRuntime) -> Result<(), Fail> {
    let three = settings(rt.alloc(), 3)?;
    assert_eq!(rt; three.own_asn(), 0x01020304);
    assert_eq!(rt; three.own_address(), 0x0a000001);
    assert_eq!(rt; three.peer_count(), 3);
    let last = Peer {
        asn: 0x102,
        address: 0x0a000102,
    };
    assert_eq!(rt; three.peer(2), Some(last));
    assert_eq!(rt; three.peer(3), None);
    Ok(())
}

#[test]
fn at_most_64_peers(rt: HostRuntime) -> Result<(), Fail> {
    let none = settings_frame(rt.alloc(), 0)?;
    let most = settings_frame(rt.alloc(), 64)?;
    let more = settings_frame(rt.alloc(), 65)?;
    assert_eq!(rt; before(none.as_slice()), (Seen::Settings, 10));
    assert_eq!(rt; before(most.as_slice()), (Seen::Settings, 522));
    assert_eq!(rt;
        before(more.as_slice()),
        (Seen::Refused(Refusal::TooManyPeers), 530)
    );
    Ok(())
}

#[test]
fn frames_before_settings(rt: HostRuntime) {
    let refused = Seen::Refused(Refusal::NoSettings);
    assert_eq!(rt; before(&[1, 9, 0, 2, 7, 7]), (refused, 6));
    assert_eq!(rt; before(&[2, 9, 0]), (refused, 3));
    assert_eq!(rt; before(&[2, 9, 1]), (refused, 3));
    assert_eq!(rt; before(&[3]), (refused, 1));
    assert_eq!(rt; before(&[4, 0, 0, 0, 1, 35]), (refused, 6));
    assert_eq!(rt; before(&[4, 0, 1, 0, 1]), (refused, 65_542));
    assert_eq!(rt;
        before(&[2, 9, 2]),
        (Seen::Unreadable(Defect::UnknownState), 0)
    );
    assert_eq!(rt; before(&[6]), (Seen::Unreadable(Defect::UnknownKind), 0));
    assert_eq!(rt; before(&[]), (Seen::More, 0));
}

#[test]
fn frames_under_settings(rt: HostRuntime) -> Result<(), Fail> {
    let three = settings(rt.alloc(), 3)?;
    let message = Seen::Message {
        peer: 2,
        length: 258,
        first: Some(7),
    };
    let mut frame = vec![in rt.alloc(); 1u8, 2, 1, 2]?;
    frame.resize(300, 7)?;
    assert_eq!(rt; under(&three, frame.as_slice()), (message, 262));
    let empty = Seen::Message {
        peer: 0,
        length: 0,
        first: None,
    };
    assert_eq!(rt; under(&three, &[1, 0, 0, 0, 3]), (empty, 4));
    assert_eq!(rt; under(&three, &[2, 2, 1, 3]), (Seen::Up(2), 3));
    assert_eq!(rt; under(&three, &[2, 0, 0]), (Seen::Down(0), 3));
    assert_eq!(rt; under(&three, &[3, 6]), (Seen::Tick, 1));
    let again = settings_frame(rt.alloc(), 255)?;
    assert_eq!(rt;
        under(&three, again.as_slice()),
        (Seen::Refused(Refusal::SettingsAgain), 2050)
    );
    Ok(())
}

#[test]
fn frames_that_cannot_be_read(rt: HostRuntime) -> Result<(), Fail> {
    let three = settings(rt.alloc(), 3)?;
    assert_eq!(rt;
        under(&three, &[0]),
        (Seen::Unreadable(Defect::UnknownKind), 0)
    );
    assert_eq!(rt;
        under(&three, &[6, 3]),
        (Seen::Unreadable(Defect::UnknownKind), 0)
    );
    assert_eq!(rt;
        under(&three, &[1, 3, 0, 1, 9]),
        (Seen::Unreadable(Defect::UnknownPeer), 0)
    );
    assert_eq!(rt;
        under(&three, &[2, 3, 1]),
        (Seen::Unreadable(Defect::UnknownPeer), 0)
    );
    assert_eq!(rt;
        under(&three, &[2, 2, 2]),
        (Seen::Unreadable(Defect::UnknownState), 0)
    );
    let none = settings(rt.alloc(), 0)?;
    assert_eq!(rt;
        under(&none, &[2, 0, 1]),
        (Seen::Unreadable(Defect::UnknownPeer), 0)
    );
    Ok(())
}

#[test]
fn texts(rt: HostRuntime) -> Result<(), Fail> {
    let three = settings(rt.alloc(), 3)?;
    let empty = Seen::PolicyText {
        length: 0,
        first: None,
    };
    assert_eq!(rt; under(&three, &[4, 0, 0, 0, 0, 3]), (empty, 5));
    let largest = Seen::PolicyText {
        length: 65_536,
        first: Some(b'#'),
    };
    let frame = text_frame(rt.alloc(), 65_536)?;
    assert_eq!(rt; under(&three, frame.as_slice()), (largest, 65_541));
    let refused = Seen::Refused(Refusal::TextTooLong);
    assert_eq!(rt; under(&three, &[4, 0, 1, 0, 1]), (refused, 65_542));
    assert_eq!(rt;
        under(&three, &[4, 255, 255, 255, 255]),
        (refused, 4_294_967_300)
    );
    Ok(())
}

/// Each part of a frame from its start, but for the whole, needs more.
fn check_parts<F: Fn(&[u8]) -> (Seen, usize)>(rt: &impl Abort, read: F, frame: &[u8])
    requires { F.IsAlwaysCallable read }
{
    for n in 0..frame.len() {
        assert_eq!(rt; read(&frame[0..n]), (Seen::More, 0));
    }
}

#[test]
fn parts_of_frames(rt: HostRuntime) -> Result<(), Fail> {
    let three = settings(rt.alloc(), 3)?;
    let under_three = |bytes: &[u8]| under(&three, bytes);
    check_parts(&rt, &under_three, &[1, 0, 0, 2, 9, 9]);
    check_parts(&rt, &under_three, &[2, 0, 1]);
    check_parts(&rt, &under_three, &[3]);
    check_parts(&rt, &under_three, &[4, 0, 0, 0, 2, 35, 35]);
    let frame = settings_frame(rt.alloc(), 3)?;
    check_parts(&rt, &under_three, frame.as_slice());
    check_parts(&rt, before, frame.as_slice());
    Ok(())
}

#[test]
fn faults(rt: HostRuntime) {
    assert_eq!(rt; u8::from(Refusal::NoSettings.fault()), 11);
    assert_eq!(rt; u8::from(Refusal::SettingsAgain.fault()), 11);
    assert_eq!(rt; u8::from(Refusal::TooManyPeers.fault()), 11);
    assert_eq!(rt; u8::from(Refusal::TextTooLong.fault()), 10);
    assert_eq!(rt; u8::from(Defect::UnknownKind.fault()), 11);
}

/// What is next in an input, and how many of the bytes at hand are done with.
fn next(intake: &mut Intake, bytes: &[u8]) -> (Seen, usize) {
    let turn = intake.next(bytes);
    let seen = match turn.step {
        Step::Settings => Seen::Settings,
        Step::Event { event } => shown(event),
        Step::Refused { refusal } => Seen::Refused(refusal),
        Step::More => Seen::More,
        Step::Unreadable { defect } => Seen::Unreadable(defect),
    };
    (seen, turn.taken)
}

#[test]
fn frames_in_pieces(rt: HostRuntime) -> Result<(), Fail> {
    let mut intake = Intake::new();
    assert_eq!(rt; next(&mut intake, &[4, 0, 0, 0, 2, 35]), (Seen::More, 0));
    assert_eq!(rt;
        next(&mut intake, &[4, 0, 0, 0, 2, 35, 35]),
        (Seen::Refused(Refusal::NoSettings), 7)
    );
    let frame = settings_frame(rt.alloc(), 3)?;
    assert_eq!(rt; next(&mut intake, frame.as_slice()), (Seen::Settings, 34));
    assert_eq!(rt;
        next(&mut intake, frame.as_slice()),
        (Seen::Refused(Refusal::SettingsAgain), 34)
    );
    assert_eq!(rt; next(&mut intake, &[2, 2, 1, 3]), (Seen::Up(2), 3));
    assert_eq!(rt; intake.end(&[]), None);
    assert_eq!(rt; intake.end(&[2, 2]), Some(Defect::Cut));
    assert_eq!(rt;
        next(&mut intake, &[9]),
        (Seen::Unreadable(Defect::UnknownKind), 0)
    );
    Ok(())
}

#[test]
fn a_long_text_in_pieces(rt: HostRuntime) -> Result<(), Fail> {
    let mut intake = Intake::new();
    let frame = settings_frame(rt.alloc(), 3)?;
    assert_eq!(rt; next(&mut intake, frame.as_slice()), (Seen::Settings, 34));
    let piece = vec![in rt.alloc(); 35u8; 65_535]?;
    assert_eq!(rt; next(&mut intake, &[4, 0, 1, 0, 1, 35]), (Seen::More, 6));
    assert_eq!(rt; next(&mut intake, &[]), (Seen::More, 0));
    assert_eq!(rt; next(&mut intake, piece.as_slice()), (Seen::More, 65_535));
    assert_eq!(rt; intake.end(&[]), Some(Defect::Cut));
    assert_eq!(rt;
        next(&mut intake, &[35, 3]),
        (Seen::Refused(Refusal::TextTooLong), 1)
    );
    assert_eq!(rt; intake.end(&[]), None);
    assert_eq!(rt; next(&mut intake, &[3]), (Seen::Tick, 1));
    Ok(())
}
