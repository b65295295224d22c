//! The cases as rows of events.
use crate::policies::Plan;

/// A case: the events that lead to its last, in rows, and the last, of which is shown what peers are told.
#[derive(Clone, Copy)]
pub struct Case {
    pub name: &'static str,
    pub lead: &'static [&'static [Event]],
    pub last: Event,
}

#[derive(Clone, Copy)]
pub enum Event {
    Up(u8),
    Down(u8),
    /// A peer announces prefixes by a path.
    Announce {
        peer: u8,
        prefixes: Prefixes,
        asns: &'static [u32],
        community: Option<u32>,
    },
    InForce(Plan),
}

/// What is announced.
#[derive(Clone, Copy)]
pub enum Prefixes {
    /// 10.0.0.0/8
    Eight,
    /// 10.1.0.0/16 to 10.9.0.0/16
    Nine,
}

/// Peer 1 announces by 7 and 9.
const FIRST: Event = Event::Announce {
    peer: 1,
    prefixes: Prefixes::Eight,
    asns: &[7, 9],
    community: None,
};

const NINE_FIRST: Event = Event::Announce {
    peer: 1,
    prefixes: Prefixes::Nine,
    asns: &[7, 9],
    community: None,
};

/// Peer 2 announces by 8.
const SECOND: Event = Event::Announce {
    peer: 2,
    prefixes: Prefixes::Eight,
    asns: &[8],
    community: None,
};

const NINE_SECOND: Event = Event::Announce {
    peer: 2,
    prefixes: Prefixes::Nine,
    asns: &[8],
    community: None,
};

pub const CASES: [Case; 11] = [
    Case {
        name: "A",
        lead: &[],
        last: FIRST,
    },
    Case {
        name: "B",
        lead: &[&[FIRST]],
        last: SECOND,
    },
    Case {
        name: "C",
        lead: &[&[FIRST]],
        last: Event::Announce {
            peer: 2,
            prefixes: Prefixes::Eight,
            asns: &[8, 5],
            community: None,
        },
    },
    Case {
        name: "D",
        lead: &[&[FIRST, SECOND]],
        last: Event::InForce(Plan::Preferring),
    },
    Case {
        name: "E",
        lead: &[&[FIRST, SECOND]],
        last: SECOND,
    },
    Case {
        name: "F",
        lead: &[&[FIRST, SECOND]],
        last: Event::Down(2),
    },
    Case {
        name: "G",
        lead: &[&[Event::Announce {
            peer: 1,
            prefixes: Prefixes::Eight,
            asns: &[7, 9],
            community: Some(7),
        }]],
        last: Event::InForce(Plan::BarringCommunity),
    },
    Case {
        name: "nine prefixes are barred",
        lead: &[&[NINE_FIRST, FIRST]],
        last: Event::InForce(Plan::BarringNine),
    },
    Case {
        name: "the session comes back after they were",
        lead: &[&[
            NINE_FIRST,
            FIRST,
            Event::InForce(Plan::BarringNine),
            Event::Down(3),
            Event::InForce(Plan::Everybody),
        ]],
        last: Event::Up(3),
    },
    Case {
        name: "other routes become the best",
        lead: &[&[NINE_FIRST, NINE_SECOND]],
        last: Event::InForce(Plan::Preferring),
    },
    Case {
        name: "the same 20 times over",
        lead: &[&[FIRST, SECOND], &[SECOND; 20]],
        last: SECOND,
    },
];
