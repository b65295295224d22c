//! Filling a buffer and taking bytes out of it.
ghost use Rattle.std.specs.Prelude.{◌≡◌, ◌+◌, ◌≤◌, [], length, take, drop, IfOk, MatchResult};
ghost use Rattle.intake.specs.Buffer.{at_hand, Came};

use super::{Buffer, CAPACITY};
use std::io;
use std::io::Read;

impl Buffer {
    /// A buffer with nothing at hand.
    pub fn new() -> Buffer
        ensures { at_hand result ≡ [] }
    {
        Buffer {
            bytes: [0; CAPACITY],
            start: 0,
            end: 0,
        }
    }

    /// The bytes at hand.
    pub fn at_hand(&self) -> &[u8]
        ensures { result.now ≡ at_hand self.now }
    {
        &self.bytes[self.start..self.end]
    }

    /// The first `count` bytes, or all if there are fewer, are done with.
    pub fn take(&mut self, count: usize)
        ensures { at_hand self.new ≡ drop count (at_hand self.old) }
    {
        self.start += count.min(self.end - self.start);
    }

    /// Waits for more of the input, and puts what comes behind the bytes at hand. Nothing comes at the end of the input,
    /// and where there is no room.
    pub fn fill<R: Read>(&mut self, source: &mut R) -> io::Result<usize>
        ensures { MatchResult result (λ n. Came (at_hand self.old) n (at_hand self.new)) (λ _. at_hand self.new ≡ at_hand self.old) }
    {
        if self.end == CAPACITY {
            self.move_to_front();
        }
        self.read_behind(source)
    }

    /// Reads into the room behind the bytes at hand.
    fn read_behind<R: Read>(&mut self, source: &mut R) -> io::Result<usize>
        ensures { MatchResult result (λ n. Came (at_hand self.old) n (at_hand self.new)) (λ _. at_hand self.new ≡ at_hand self.old) }
    {
        let end = self.end;
        let count = read_from(source, &mut self.bytes, end)?;
        self.end = end + count;
        Ok(count)
    }

    /// Makes room behind the bytes at hand.
    fn move_to_front(&mut self)
        ensures { at_hand self.new ≡ at_hand self.old }
    {
        self.bytes.copy_within(self.start..self.end, 0);
        self.end -= self.start;
        self.start = 0;
    }
}

/// Reads into the places from `at` on.
fn read_from<R: Read>(source: &mut R, bytes: &mut [u8; CAPACITY], at: usize) -> io::Result<usize>
    requires { at ≤ 131072 }
    ensures places { length bytes.new ≡ 131072 }
    ensures kept { take at bytes.new ≡ take at bytes.old }
    ensures fits { IfOk result (λ n. at + n ≤ 131072) }
{
    source.read(&mut bytes[at..])
}
