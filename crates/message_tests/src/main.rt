//! Reads messages from a table and prints what each says, or its fault. A row is a name, the state and the peer, and the message in hexadecimal digits; `00*7` stands for 7 such bytes. Then prints the messages that are written.
#![tactic(auto)]

ghost use Rattle.std.specs.Prelude.{◌^◌, ◌<◌};

use fault::Fault;
use message::{Attributes, Content, Message, Peer, State, read};
use message_write::{
    write_announcement, write_keepalive, write_notification, write_open, write_withdrawal,
};
use prefix::Prefix;
use route::{Communities, Metrics, Path, Route};
use std::alloc::AllocError;
use std::io;
use update::split_update;
use wire::Prefixes;

/// The value of a hexadecimal digit.
fn digit(b: u8) -> u8
    ensures { result < 16 }
{
    match b {
        b'0'..=b'9' => b - b'0',
        b'a'..=b'f' => b - b'a' + 10,
        _ => 0,
    }
}

/// Adds the bytes that the digits stand for, so many times.
fn push_digits(bytes: &mut Vec<u8>, digits: &str, times: u16) -> Result<(), AllocError> {
    let digits = digits.as_bytes();
    for _ in 0..times {
        for pair in digits.chunks_exact(2) {
            if let [high, low] = pair {
                bytes.push(digit(*high) * 16 + digit(*low))?;
            }
        }
    }
    Ok(())
}

fn push_word(bytes: &mut Vec<u8>, word: &str) -> Result<(), AllocError> {
    match word.split_once('*') {
        Some((digits, times)) => push_digits(bytes, digits, times.parse::<u16>().unwrap_or(0)),
        None => push_digits(bytes, word, 1),
    }
}

fn show_prefixes(rt: &HostRuntime, sign: &str, part: &[u8]) -> io::Result<()> {
    let mut prefixes = Prefixes::of(part);
    // A count, since `Prefixes` is no iterator: a message has at most 4096 bytes.
    for _ in 0..4096 {
        let Some(prefix) = prefixes.next() else {
            break;
        };
        print!(rt; " {sign}{prefix}")?;
    }
    Ok(())
}

fn show_numbers(rt: &HostRuntime, numbers: &[u32]) -> io::Result<()> {
    for number in numbers {
        let number = *number;
        print!(rt; " {number}")?;
    }
    Ok(())
}

fn show_attributes(rt: &HostRuntime, attributes: Attributes) -> io::Result<()> {
    print!(rt; ": path")?;
    show_numbers(rt, attributes.path.asns())?;
    let med = attributes.med;
    print!(rt; ", MED {med}, communities")?;
    show_numbers(rt, attributes.communities.as_slice())
}

/// Prints the fault behind the sign.
fn show_fault(rt: &HostRuntime, sign: &str, fault: Fault) -> io::Result<()> {
    let code = u8::from(fault);
    print!(rt; "{sign} fault {code}")
}

fn show_content(rt: &HostRuntime, content: Content) -> io::Result<()> {
    match content {
        Content::Announces(attributes) => show_attributes(rt, attributes),
        Content::Withdraws => print!(rt; ": nothing announced"),
        Content::Faulty(fault) => show_fault(rt, ":", fault),
    }
}

fn show_message(rt: &HostRuntime, message: Message, bytes: &[u8]) -> io::Result<()> {
    match message {
        Message::Open(opened) => {
            let hold_time = opened.hold_time;
            let identifier = opened.identifier;
            print!(rt; " OPEN, hold time {hold_time}, identifier {identifier}")
        }
        Message::Update(content) => {
            print!(rt; " UPDATE")?;
            let parts = split_update(bytes);
            show_prefixes(rt, "-", parts.withdrawn)?;
            show_prefixes(rt, "+", parts.announced)?;
            show_content(rt, content)
        }
        Message::Notification(code, subcode) => print!(rt; " NOTIFICATION {code} {subcode}"),
        Message::Keepalive => print!(rt; " KEEPALIVE"),
    }
}

/// Reads one message, as the peer that the letter stands for: o and O await an OPEN, e and E are established.
fn show(rt: &HostRuntime, who: &str, bytes: &[u8]) -> io::Result<()> {
    let state = match who {
        "o" | "O" => State::OpenSent,
        _ => State::Established,
    };
    let peer = match who {
        "o" | "e" => Peer {
            asn: 65001,
            address: 0x0a000001,
        },
        _ => Peer {
            asn: 4200000001,
            address: 0xc0000201,
        },
    };
    match read(state, peer, bytes) {
        Ok(message) => show_message(rt, message, bytes),
        Err(fault) => show_fault(rt, "", fault),
    }
}

fn show_row(rt: &HostRuntime, line: &str) -> io::Result<()> {
    let mut words = line.split_whitespace();
    let Some(name) = words.next() else {
        return Ok(());
    };
    let Some(who) = words.next() else {
        return Ok(());
    };
    let mut bytes = Vec::new(rt.alloc());
    for word in words {
        push_word(&mut bytes, word)?;
    }
    print!(rt; "{name}:")?;
    show(rt, who, bytes.as_slice())?;
    println!(rt; "")
}

/// Prints what is written into a buffer of so many bytes, and the byte behind it; the whole buffer where it is refused.
fn show_written<const ROOM: usize, F: FnOnce(&mut [u8]) -> Option<usize>>(
    rt: &HostRuntime,
    name: &str,
    write: F,
) -> io::Result<()>
    requires callable { F.IsAlwaysCallable write }
    requires fits { ROOM < 2 ^ 63 }
{
    let mut buffer = [0xee; ROOM];
    let written = write(&mut buffer);
    print!(rt; "{name}: ")?;
    let shown = written.map_or(ROOM, |count| count.saturating_add(1));
    for byte in buffer.iter().take(shown) {
        print!(rt; "{byte:02x}")?;
    }
    if written.is_none() {
        print!(rt; " refused")?;
    }
    println!(rt; "")
}

fn write_route(buffer: &mut [u8], asns: &[u32], med: u32, communities: &[u32]) -> Option<usize> {
    let route = Route {
        prefix: Prefix::new(0x0a010000, 17)?,
        path: Path::new(asns)?,
        metrics: Metrics {
            local_pref: 100,
            med,
        },
        communities: Communities::of(communities)?,
    };
    write_announcement(buffer, &route, 0xc0000201)
}

fn write_none(buffer: &mut [u8], address: u32, length: u8) -> Option<usize> {
    let prefix = Prefix::new(address, length)?;
    write_withdrawal(buffer, &prefix)
}

fn show_opens(rt: &HostRuntime) -> io::Result<()> {
    show_written::<50, _>(
        rt,
        "write-open",
        |buffer| write_open(buffer, 65010, 0xc0000201),
    )?;
    show_written::<50, _>(
        rt,
        "write-open-large",
        |buffer| write_open(buffer, 4200000010, 0xc0000201),
    )?;
    show_written::<42, _>(rt, "write-open-no-room", |buffer| write_open(buffer, 1, 2))
}

fn show_short(rt: &HostRuntime) -> io::Result<()> {
    show_written::<30, _>(rt, "write-keepalive", |buffer| write_keepalive(buffer))?;
    show_written::<18, _>(
        rt,
        "write-keepalive-no-room",
        |buffer| write_keepalive(buffer),
    )?;
    show_written::<30, _>(
        rt,
        "write-notification",
        |buffer| write_notification(buffer, Fault::HoldTimer),
    )?;
    show_written::<20, _>(
        rt,
        "write-notification-no-room",
        |buffer| write_notification(buffer, Fault::Header),
    )
}

fn show_withdrawals(rt: &HostRuntime) -> io::Result<()> {
    show_written::<30, _>(
        rt,
        "write-withdrawal",
        |buffer| write_none(buffer, 0x0a000000, 8),
    )?;
    show_written::<30, _>(
        rt,
        "write-withdrawal-default",
        |buffer| write_none(buffer, 0, 0),
    )?;
    show_written::<26, _>(
        rt,
        "write-withdrawal-no-room",
        |buffer| write_none(buffer, 0x0a010200, 24),
    )
}

fn show_announcements(rt: &HostRuntime) -> io::Result<()> {
    show_written::<100, _>(
        rt,
        "write-announcement",
        |buffer| write_route(buffer, &[65010, 65001], 7, &[5, 3, 5]),
    )?;
    show_written::<100, _>(
        rt,
        "write-announcement-plain",
        |buffer| write_route(buffer, &[4200000010], 0, &[]),
    )?;
    show_written::<53, _>(
        rt,
        "write-announcement-no-room",
        |buffer| write_route(buffer, &[4200000010], 0, &[]),
    )
}

fn main(rt: HostRuntime) -> io::Result<()> {
    for line in rt.lines(rt.alloc()) {
        let line = line?;
        show_row(&rt, line.as_str())?;
    }
    show_opens(&rt)?;
    show_short(&rt)?;
    show_withdrawals(&rt)?;
    show_announcements(&rt)
}
