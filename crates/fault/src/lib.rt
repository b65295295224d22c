//! What can be wrong with what a route server reads, and the number of each fault.
#![tactic(auto)]

ghost use Rattle.std.specs.Prelude.{◌≡◌};
ghost use Rattle.fault.specs.Fault.{code};

/// A fault, by its cause. A session that the server ends for one gets its number as the subcode of a NOTIFICATION.
#[derive(Clone, Copy, Debug, PartialEq, Eq)]
pub enum Fault {
    /// A message without the 16 bytes of 255 in front, or of a wrong length or type.
    Header,
    /// An OPEN that is not awaited, has another version or autonomous system, a hold time other than 90 and 0, no
    /// capability 65, or capabilities that run over its length.
    Open,
    /// An UPDATE or a KEEPALIVE before both OPENs.
    NotEstablished,
    /// Prefixes or attributes that run over their length.
    Overrun,
    /// An attribute that comes twice, or has a wrong length or wrong flags.
    Attribute,
    /// A prefix longer than 24 or with bits behind its length, more than 8 communities, or an AS path that is empty, too
    /// long, not of sequences, or does not begin with the peer's autonomous system.
    Value,
    /// A next hop that is not the peer's address.
    NextHop,
    /// An UPDATE that announces prefixes and has no AS path or no next hop.
    Missing,
    /// More routes than there is capacity for.
    Capacity,
    /// A policy text that is too long, cannot be read, or has more of something than it may.
    PolicyText,
    /// Settings or a frame that cannot be read, more than 64 peers, settings a second time, or any other frame before
    /// settings.
    Frame,
    /// A session on which nothing came for 90 seconds.
    HoldTimer,
}

/// The fault's number.
impl From<Fault> for u8 {
    ghost from_gives = { λ fault number. number ≡ code fault };

    fn from(fault: Fault) -> u8 {
        match fault {
            Fault::Header => 1,
            Fault::Open => 2,
            Fault::NotEstablished => 3,
            Fault::Overrun => 4,
            Fault::Attribute => 5,
            Fault::Value => 6,
            Fault::NextHop => 7,
            Fault::Missing => 8,
            Fault::Capacity => 9,
            Fault::PolicyText => 10,
            Fault::Frame => 11,
            Fault::HoldTimer => 13,
        }
    }
}
