//! Prefixes as they are written.
ghost use Rattle.std.specs.Prelude.{Some};
ghost use Rattle.prefix.specs.Meant.{meant};
ghost use Rattle.prefix.specs.Text.{prefix_text};

use crate::Prefix;
use std::fmt;

/// A prefix, as 10.0.0.0/8.
impl fmt::Display for Prefix {
    ghost output = { λ p. Some (prefix_text (meant p)) };

    fn fmt<W: fmt::Write>(&self, f: &mut fmt::Formatter<W>) -> fmt::Result {
        let address = self.address();
        let a = address / 16777216;
        let b = address / 65536 % 256;
        let c = address / 256 % 256;
        let d = address % 256;
        let length = self.length();
        write!(f, "{a}.{b}.{c}.{d}/{length}")
    }
}
