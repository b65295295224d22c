//! Lines and columns.
ghost use Rattle.std.specs.Prelude.{◌≡◌, ◌+◌, ◌^◌, ◌<◌};
ghost use Rattle.text_tokens.specs.Places.{after, place_from, place_of};

use crate::Place;

impl Place {
    /// Where the byte at the offset stands in the text; an offset past the end is taken as the end.
    pub fn of(text: &[u8], offset: usize) -> Place
        ensures { result ≡ place_of text.now offset }
    {
        Place::behind(&text[..offset.min(text.len())])
    }

    /// The place behind the bytes.
    fn behind(bytes: &[u8]) -> Place
        ensures { result ≡ place_from (record { line = 1; column = 1 }) bytes.now }
    {
        let mut place = Place { line: 1, column: 1 };
        for byte in bytes {
            place = place.after(*byte);
        }
        place
    }

    /// The place behind a byte at this place.
    fn after(self, byte: u8) -> Place
        requires { (self.line + 1 < 2 ^ 64) × (self.column + 1 < 2 ^ 64) }
        ensures { result ≡ after self byte }
    {
        if byte == b'\n' {
            Place {
                line: self.line + 1,
                column: 1,
            }
        } else {
            Place {
                column: self.column + 1,
                ..self
            }
        }
    }
}
