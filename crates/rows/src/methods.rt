//! Rows of at most so many items.
ghost use Rattle.std.specs.Prelude.{◌≡◌, ◌<◌, ◌≤◌, [], ◌∷◌, ◌++◌, length, nat_lt, MatchResult, Ok, Err};
ghost use Rattle.rows.specs.Rows.{held};

use crate::{Full, Row};

impl<T: Copy, const N: usize> Row<T, N> {
    /// A row without items. What fills its memory means nothing.
    pub fn new(filler: T) -> Row<T, N>
        ensures { held result ≡ [] }
    {
        Row {
            items: [filler; N],
            count: 0,
        }
    }

    /// The items, in order.
    pub fn as_slice(&self) -> &[T]
        ensures { result.now ≡ held self.now }
    {
        let items = self.items.as_slice();
        &items[..self.count]
    }

    /// How many items there are.
    pub fn len(&self) -> usize
        ensures value { result ≡ length (held self.now) }
        ensures bound { result ≤ N }
    {
        self.count
    }

    /// One item more, at the end; where there are `N`, the row is left as it is.
    pub fn push(&mut self, item: T) -> Result<(), Full>
        ensures { MatchResult result (λ _. (length (held self.old) < N) × (held self.new ≡ held self.old ++ (item ∷ []))) (λ _. (length (held self.old) ≡ N) × (self.new ≡ self.old)) }
    {
        let count = self.count;
        if count == N {
            return Err(Full);
        }
        self.items[count] = item;
        self.count = count + 1;
        Ok(())
    }
}
