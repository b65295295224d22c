//! The value of the attribute AS_PATH.
ghost use Rattle.std.specs.Prelude.{◌≡◌, ◌≤◌, [], length, option_map, IfSome, IfOk, Some};
ghost use Rattle.attributes.specs.AsPath.{read_path, segment_size};
ghost use Rattle.attributes.specs.Gathering.{read_segments, starting_with, with_segment};
ghost use Rattle.attributes.specs.Meant.{numbers_of, reading_of};
ghost use Rattle.route.specs.Meant.{asns_of};

use crate::numbers::push_numbers;
use arrayvec::ArrayVec;
use fault::Fault;
use route::Path;
use wire::{byte_at, cut, skip};

/// The type of a segment whose networks stand in order.
const SEQUENCE: u8 = 2;

/// The networks of a path, as far as it is read.
type Networks = ArrayVec<u32, 32>;

/// The path that the value holds: of the peer's, so that it begins with its network.
#[tactic(auto, using(crate::proofs::Segments::paths))]
pub fn read_path(value: &[u8], asn: u32) -> Result<Path, Fault>
    ensures { reading_of asns_of result ≡ read_path asn value.now }
{
    let asns = read_segments(value)?;
    path_of(asns.as_slice(), asn)
}

/// The path of these networks, if there are 1 to 32 and it begins with the peer's.
fn path_of(asns: &[u32], asn: u32) -> Result<Path, Fault>
    ensures { length asns.now ≤ 32 → reading_of asns_of result ≡ starting_with asn asns.now }
{
    if asns.first() != Some(&asn) {
        return Err(Fault::Value);
    }
    Path::new(asns).ok_or(Fault::Value)
}

/// The networks of all segments.
#[tactic(auto, using(crate::proofs::Segments::gathering))]
fn read_segments(value: &[u8]) -> Result<Networks, Fault>
    ensures within { IfOk result (λ r. length (numbers_of r) ≤ 32) }
    ensures asns { reading_of numbers_of result ≡ read_segments 32 (Some []) value.now }
{
    let mut asns = Some(Networks::new());
    let mut rest = value;
    while !rest.is_empty() {
        let (segment, after) = cut(rest, segment_size(rest)).ok_or(Fault::Attribute)?;
        add_segment(&mut asns, segment);
        rest = after;
    }
    asns.ok_or(Fault::Value)
}

/// How many bytes the first segment takes.
fn segment_size(segments: &[u8]) -> usize
    ensures { result ≡ segment_size segments.now }
{
    2 + 4 * usize::from(byte_at(segments, 1))
}

/// Puts the networks of a segment behind the others; none is left of a path that has a wrong segment or is too long.
#[tactic(auto, using(crate::proofs::Segments::one_more))]
fn add_segment(asns: &mut Option<Networks>, segment: &[u8])
    requires { IfSome asns.old (λ r. length (numbers_of r) ≤ 32) }
    ensures within { IfSome asns.new (λ r. length (numbers_of r) ≤ 32) }
    ensures asns { option_map numbers_of asns.new ≡ with_segment 32 (option_map numbers_of asns.old) segment.now }
{
    let Some(row) = asns else { return };
    let networks = skip(segment, 2);
    let is_sequence = byte_at(segment, 0) == SEQUENCE && networks.len() >= 4;
    if !is_sequence || push_numbers(row, networks).is_err() {
        *asns = None;
    }
}
