//! Where looking for a prefix in a list begins.
ghost use Rattle.std.specs.Prelude.{◌≡◌, ◌+◌, ◌<◌, min, map, slice_index, slice_set};
ghost use Rattle.policy.specs.Meant.{prefixes_of};
ghost use Rattle.policy.specs.Policy.{is_covered, is_listed};
ghost use Rattle.policy.specs.Starts.{Lowered, bucket_of, first_bucket, last_bucket};
ghost use Rattle.prefix.specs.Meant.{meant};
ghost use Rattle.prefix.specs.Prefix.{same, within};
ghost use Rattle.std.specs.List.{list_any};

use crate::PrefixList;
use crate::prefix_lists::{is_covered, is_listed};
use prefix::Prefix;

impl PrefixList {
    /// Whether the prefix is one of the list.
    pub fn has(&self, prefix: &Prefix) -> bool
        ensures { result ≡ is_listed (meant prefix.now) (prefixes_of self.now) }
    {
        is_listed(prefix, self.candidates(prefix))
    }

    /// Whether the prefix is within one of the list.
    pub fn covers(&self, prefix: &Prefix) -> bool
        ensures { result ≡ is_covered (meant prefix.now) (prefixes_of self.now) }
    {
        is_covered(prefix, self.candidates(prefix))
    }

    /// The prefixes of the list from the first that can hold this one on.
    fn candidates(&self, prefix: &Prefix) -> &[Prefix]
        ensures covered { list_any (λ q. within (meant prefix.now) (meant q)) result.now ≡ is_covered (meant prefix.now) (prefixes_of self.now) }
        ensures listed { list_any (λ q. same (meant prefix.now) (meant q)) result.now ≡ is_listed (meant prefix.now) (prefixes_of self.now) }
    {
        let prefixes = self.prefixes.as_slice();
        let start = usize::from(self.starts[bucket_of(prefix.address())]).min(prefixes.len());
        &prefixes[start..]
    }
}

/// The bucket of an address: its first 10 bits.
fn bucket_of(address: u32) -> usize
    ensures value { result ≡ bucket_of address }
    ensures bound { result < 1024 }
{
    (address >> 22) as usize
}

/// Lets looking for what is within the prefix begin no later than at the place.
#[tactic(auto, using(crate::proofs::Beginnings::lowered_none, crate::proofs::Beginnings::lowered_more))]
pub(crate) fn lower_starts(starts: &mut [u8], prefix: &Prefix, place: u8)
    ensures { Lowered starts.old starts.new (first_bucket (meant prefix.now)) (last_bucket (meant prefix.now) + 1) place }
{
    let first = u64::from(prefix.address());
    let last = first + ((1u64 << (32 - prefix.length())) - 1);
    for bucket in (first >> 22) as usize..(last >> 22) as usize + 1 {
        lower_start(starts, bucket, place);
    }
}

/// The same for one bucket; past the last there is nothing to lower.
#[tactic(auto, using(crate::proofs::Beginnings::past))]
fn lower_start(starts: &mut [u8], bucket: usize, place: u8)
    ensures { starts.new ≡ slice_set starts.old bucket (min (slice_index starts.old bucket) place) }
{
    if bucket < starts.len() {
        starts[bucket] = starts[bucket].min(place);
    }
}
