//! The words of a line.
use crate::{Problem, read_byte, read_number};
use std::str::SplitWhitespace;

#[derive(Drop)]
pub struct Words<'a> {
    rest: SplitWhitespace<'a>,
}

impl<'a> Words<'a> {
    /// What stands behind `#` is no word.
    pub fn of(line: &'a str) -> Words<'a> {
        let words = line.split_once('#').map_or(line, |(before, _)| before);
        Words {
            rest: words.split_whitespace(),
        }
    }

    /// The next word, if there is one.
    pub fn next(&mut self) -> Option<&'a str> {
        self.rest.next()
    }

    /// The next word.
    pub fn word(&mut self) -> Result<&'a str, Problem> {
        self.rest.next().ok_or(Problem::Missing)
    }

    /// The next word, a number.
    pub fn number(&mut self) -> Result<u32, Problem> {
        read_number(self.word()?)
    }

    /// The next word, a number below 256.
    pub fn small(&mut self) -> Result<u8, Problem> {
        u8::try_from(self.number()?).map_err(|_| Problem::NoNumber)
    }

    /// All other words.
    pub fn rest(self) -> SplitWhitespace<'a> {
        let Words { rest } = self;
        rest
    }

    /// All other words, as bytes.
    pub fn put_bytes(self, out: &mut Vec<u8>) -> Result<(), Problem> {
        for word in self.rest() {
            out.push(read_byte(word)?)?;
        }
        Ok(())
    }

    /// That there is no other word.
    pub fn end(mut self) -> Result<(), Problem> {
        match self.rest.next() {
            Some(_) => Err(Problem::Extra),
            None => Ok(()),
        }
    }
}
