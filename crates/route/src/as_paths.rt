//! AS paths.
ghost use Rattle.std.specs.Prelude.{◌≡◌, ◌-◌, ◌<◌, ◌≤◌, false, ◌&&◌, ◌++◌, length, take, drop, replicate, if◌then◌else◌, MatchOption, MatchResult, true, nat_le, nat_lt};
ghost use Rattle.route.specs.Meant.{asns_of};
ghost use Rattle.route.specs.Numbers.{prepended};
ghost use Rattle.route.specs.Steps.{EndSteps};

use crate::Path;
use rows::Full;

impl Path {
    /// The path of these networks, if they are 1 to 32.
    pub fn new(asns: &[u32]) -> Option<Path>
        ensures { MatchOption result ((nat_lt 0 (length asns.now) && nat_le (length asns.now) 32) ≡ false) (λ p. asns_of p ≡ asns.now) }
    {
        if asns.is_empty() || asns.len() > 32 {
            return None;
        }
        let mut all = [0; 32];
        write_at_end(&mut all, asns);
        Some(Path {
            asns: all,
            start: 32 - asns.len(),
        })
    }

    /// The networks of the path, the nearest first.
    pub fn asns(&self) -> &[u32]
        ensures { result.now ≡ asns_of self.now }
    {
        end_law();
        let start = self.start;
        &self.asns[start..]
    }

    /// How many networks the path has.
    pub fn len(&self) -> usize
        ensures value { result ≡ length (asns_of self.now) }
        ensures bound { (0 < result) × (result ≤ 32) }
    {
        end_law();
        32 - self.start
    }

    /// Puts `asn` in front so many times. A path that would have more than 32 networks is left as it is.
    pub fn prepend(&mut self, asn: u32, times: u8) -> Result<(), Full>
        ensures { MatchResult result (λ _. (nat_le (length (prepended asn times (asns_of self.old))) 32 ≡ true) × (asns_of self.new ≡ prepended asn times (asns_of self.old))) (λ _. (nat_le (length (prepended asn times (asns_of self.old))) 32 ≡ false) × (self.new ≡ self.old)) }
    {
        end_law();
        let times = usize::from(times);
        let start = self.start;
        if times > start {
            return Err(Full);
        }
        write_before(&mut self.asns, start, asn, times);
        self.start = start - times;
        Ok(())
    }
}

/// Writes the row at the end of `all`.
fn write_at_end(all: &mut [u32], row: &[u32])
    requires { length row.now ≤ length all.old }
    ensures end { drop (length all.old - length row.now) all.new ≡ row.now }
    ensures whole { all.new ≡ take (length all.old - length row.now) all.old ++ row.now }
{
    let start = all.len() - row.len();
    all[start..].copy_from_slice(row);
}

/// Writes `asn` so many times right before `end`.
fn write_before(all: &mut [u32], end: usize, asn: u32, times: usize)
    requires { (times ≤ end) × (end ≤ length all.old) }
    ensures whole { all.new ≡ take (end - times) all.old ++ (replicate times asn ++ drop end all.old) }
    ensures before { drop (end - times) all.new ≡ prepended asn times (drop end all.old) }
{
    all[end - times..end].fill(asn);
}

fn end_law()
    ensures { EndSteps }
{}
