//! The names of the lists so far.
ghost use Rattle.std.specs.Prelude.{◌≡◌, ◌<◌, ◌≤◌, IfSome, [], ◌∷◌, ◌++◌, map, length, MatchResult};
ghost use Rattle.policy_clauses.specs.Meant.{names_of};
ghost use Rattle.policy_clauses.specs.Reading.{index_of};
ghost use Rattle.std.specs.List.{position_from};
ghost use Rattle.std.specs.Str.{bytes_eq};

use crate::Names;
use rows::{Full, Row};

impl<'a> Names<'a> {
    /// No names.
    pub fn new() -> Names<'a>
        ensures { names_of result ≡ [] }
    {
        Names {
            words: Row::new(&[]),
        }
    }

    /// One name more; where there are 64, all is left as it is.
    pub fn push(&mut self, name: &'a [u8]) -> Result<(), Full>
        ensures { MatchResult result (λ _. (length (names_of self.old) < 64) × (names_of self.new ≡ names_of self.old ++ (name.now ∷ []))) (λ _. (length (names_of self.old) ≡ 64) × (names_of self.new ≡ names_of self.old)) }
    {
        self.words.push(name)
    }

    /// The number of the list that is called so, the first being 0.
    pub fn number(&self, name: &[u8]) -> Option<u8>
        ensures { result ≡ index_of name.now (names_of self.now) }
    {
        index_of(name, self.words.as_slice())
    }
}

fn index_of(name: &[u8], names: &[&[u8]]) -> Option<u8>
    requires { length names.now ≤ 64 }
    ensures { result ≡ index_of name.now (map (λ x. x.now) names.now) }
{
    let place = place_of(name, names)?;
    Some(place as u8)
}

fn place_of(name: &[u8], names: &[&[u8]]) -> Option<usize>
    ensures value { result ≡ position_from (λ x. bytes_eq name.now x.now) 0 names.now }
    ensures bound { IfSome result (λ place. place < length names.now) }
{
    names.iter().position(|other| name == *other)
}
