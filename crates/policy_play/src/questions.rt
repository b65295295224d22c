//! Tasks that ask something.
use crate::bench::{Bench, show};
use example_words::{number, numbers};
use policy::{Condition, Part, Test, Verdict};
use route::is_among;
use std::io;
use std::str::SplitWhitespace;

impl Bench<'_> {
    /// Pushes a part so many times, and prints how many were taken and whether the condition holds.
    pub fn push_parts(&mut self, times: u8, part: Part) -> io::Result<()> {
        let rt = self.rt;
        let mut taken = 0u64;
        for _ in 0..times {
            if self.condition.push(part).is_ok() {
                taken = taken.saturating_add(1);
            }
        }
        print!(rt; " {taken} ")?;
        mark(rt, self.condition.holds(self.lists.as_slice(), &self.route))
    }

    /// Marks whether the test fits: alone, as a part and as a condition, and both negated.
    pub fn show_fits(&self, test: Test) -> io::Result<()> {
        let rt = self.rt;
        let lists = self.lists.as_slice();
        print!(rt; " ")?;
        mark(rt, test.fits(lists, &self.route))?;
        for negated in [false, true] {
            let part = Part { negated, test };
            mark(rt, part.holds(lists, &self.route))?;
            let mut condition = Condition::new();
            let _ = condition.push(part);
            mark(rt, condition.holds(lists, &self.route))?;
        }
        Ok(())
    }

    /// Marks whether a network is in a row.
    pub fn show_among(&self, words: &mut SplitWhitespace<'_>) -> anyhow::Result<()> {
        let rt = self.rt;
        let asn = number(words)?;
        let row = numbers(rt.alloc(), words)?;
        print!(rt; " ")?;
        mark(rt, is_among(row.as_slice(), asn))?;
        Ok(())
    }
}

fn mark(rt: &HostRuntime, is_so: bool) -> io::Result<()> {
    let mark = if is_so { '+' } else { '-' };
    print!(rt; "{mark}")
}

pub fn show_step(rt: &HostRuntime, step: Option<Verdict>) -> io::Result<()> {
    match step {
        Some(verdict) => show_verdict(rt, verdict),
        None => show(rt, "goes on"),
    }
}

pub fn show_verdict(rt: &HostRuntime, verdict: Verdict) -> io::Result<()> {
    match verdict {
        Verdict::Accepted => show(rt, "accepted"),
        Verdict::Rejected => show(rt, "rejected"),
    }
}
