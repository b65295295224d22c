//! Tasks on lists of prefixes.
use crate::bench::{Bench, say};
use anyhow::Context;
use example_words::dotted;
use policy::PrefixList;
use prefix::Prefix;
use std::str::SplitWhitespace;

impl Bench<'_> {
    pub fn put_usual(&mut self) -> anyhow::Result<()> {
        self.put(&mut "10.0.0.0/8 192.168.0.0/16".split_whitespace())?;
        self.keep()?;
        self.put(&mut "192.168.0.0/16 10.1.0.0/16".split_whitespace())?;
        self.keep()?;
        self.keep()
    }

    /// Puts prefixes into the list, up to 64, and says `no` to each for which there is no room.
    pub fn put(&mut self, words: &mut SplitWhitespace<'_>) -> anyhow::Result<()> {
        for word in words.take(64) {
            let (address, length) = dotted(word)?;
            self.add(Prefix::new(address, length))?;
        }
        Ok(())
    }

    /// Puts 10.0.0.0/16, 10.1.0.0/16 and so on into the list, of so many prefixes.
    pub fn put_sixteens(&mut self, count: u8) -> anyhow::Result<()> {
        for i in 0..count {
            self.add(Prefix::new(u32::from_be_bytes([10, i, 0, 0]), 16))?;
        }
        Ok(())
    }

    /// Puts a prefix into the list, and says `no` where there is no room.
    fn add(&mut self, prefix: Option<Prefix>) -> anyhow::Result<()> {
        let prefix = prefix.context("there is no such prefix")?;
        if self.list.push(prefix).is_err() {
            say(self.rt, false)?;
        }
        Ok(())
    }

    /// Puts the list behind the others, and begins the next.
    pub fn keep(&mut self) -> anyhow::Result<()> {
        let list = self.list;
        self.lists.push(list)?;
        self.list = PrefixList::new();
        Ok(())
    }
}
