//! Writing bytes into a lent buffer, one part after the other.
ghost use Rattle.std.specs.Prelude.{◌≡◌, ◌+◌, ◌*◌, ◌≤◌, length as count};
ghost use Rattle.message_write.specs.Put.{Puts};
ghost use Rattle.message_write.specs.Written.{header_bytes, numbers_bytes};
ghost use Rattle.wire.specs.Bytes.{bytes32};
ghost use Rattle.wire.specs.Kinds.{number_of};

use crate::Writer;
use wire::Kind;

impl Writer<'_> {
    /// Writes the bytes.
    #[tactic(auto, using(crate::proofs::Puts::put_part))]
    pub fn put_bytes(&mut self, bytes: &[u8])
        requires { self.old.end + count bytes.now ≤ count self.old.buffer.now }
        ensures { Puts bytes.now self.old self.new }
    {
        let (start, end) = (self.end, self.end + bytes.len());
        let buffer = &mut *self.buffer;
        buffer[start..end].copy_from_slice(bytes);
        self.end = end;
    }

    /// Writes a number in 4 bytes.
    pub fn put_number(&mut self, number: u32)
        requires { self.old.end + 4 ≤ count self.old.buffer.now }
        ensures { Puts (bytes32 number) self.old self.new }
    {
        self.put_bytes(&number.to_be_bytes());
    }

    /// Writes numbers, in 4 bytes each.
    #[tactic(auto, using(crate::proofs::Puts::numbering))]
    pub fn put_numbers(&mut self, numbers: &[u32])
        requires { self.old.end + 4 * count numbers.now ≤ count self.old.buffer.now }
        ensures { Puts (numbers_bytes numbers.now) self.old self.new }
    {
        for number in numbers {
            self.put_number(*number);
        }
    }

    /// Writes the header of a message.
    #[tactic(auto, using(crate::proofs::Puts::join), unfolding(crate::specs::Written::header_bytes))]
    pub fn put_header(&mut self, kind: Kind, length: u16)
        requires { self.old.end + 19 ≤ count self.old.buffer.now }
        ensures put { Puts (header_bytes (number_of kind) length) self.old self.new }
        ensures end { self.new.end ≡ self.old.end + 19 }
    {
        self.put_bytes(&[255; 16]);
        self.put_bytes(&length.to_be_bytes());
        self.put_bytes(&[u8::from(kind)]);
    }
}
