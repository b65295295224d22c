//! What the tasks of a row work on.
use crate::numbers_of_prefixes::{show_number, show_prefix};
use crate::questions::{show_step, show_verdict};
use anyhow::{Context, anyhow};
use example_words::{
    byte, dotted, next, number, numbers, read_action, read_clause, read_part, show_route,
};
use policy::{Clause, Condition, Policy, PrefixList};
use prefix::{COUNT, Prefix};
use route::{Communities, Metrics, Path, Route};
use std::str::SplitWhitespace;
use std::{fmt, io};

#[derive(Drop)]
pub struct Bench<'a> {
    pub rt: &'a HostRuntime,
    pub route: Route,
    pub list: PrefixList,
    pub lists: Vec<PrefixList>,
    pub condition: Condition,
    clauses: Vec<Clause>,
}

impl<'a> Bench<'a> {
    pub fn new(rt: &'a HostRuntime) -> anyhow::Result<Bench<'a>> {
        Ok(Bench {
            rt,
            route: given().context("there is no such route")?,
            list: PrefixList::new(),
            lists: Vec::new(rt.alloc()),
            condition: Condition::new(),
            clauses: Vec::new(rt.alloc()),
        })
    }

    /// Does one task.
    pub fn work(&mut self, task: &str) -> anyhow::Result<()> {
        let rt = self.rt;
        let mut words = task.split_whitespace();
        let Some(word) = words.next() else {
            return Ok(());
        };
        let words = &mut words;
        match word {
            "prefix" => self.set_prefix(words)?,
            "path" => self.set_path(words)?,
            "communities" => self.set_communities(words)?,
            "bare" => self.route.communities = Communities::none(),
            "prepend" => self.prepend(words)?,
            "add" => say(rt, self.route.communities.add(number(words)?).is_ok())?,
            "remove" => self.route.communities.remove(number(words)?),
            "length" => show(rt, self.route.path.len())?,
            "number" => show_number(rt, self.route.prefix)?,
            "show" => self.show_route()?,
            "list" => self.put(words)?,
            "sixteens" => self.put_sixteens(byte(words)?)?,
            "size" => show(rt, self.list.as_slice().len())?,
            "keep" => self.keep()?,
            "usual" => self.put_usual()?,
            "if" | "then" => self.clauses.push(read_clause(word, words)?)?,
            "act" => show_step(rt, read_action(words)?.act(&mut self.route))?,
            "evaluate" => self.evaluate()?,
            "fits" => self.show_fits(read_part(words)?.test)?,
            "push" => self.push_parts(byte(words)?, read_part(words)?)?,
            "among" => self.show_among(words)?,
            "count" => show(rt, COUNT)?,
            "numbered" => show_prefix(rt, Prefix::from_number(number(words)?))?,
            _ => return Err(anyhow!("there is no such task")),
        }
        Ok(())
    }

    fn set_prefix(&mut self, words: &mut SplitWhitespace<'_>) -> anyhow::Result<()> {
        let (address, length) = dotted(next(words)?)?;
        set(
            self.rt,
            &mut self.route.prefix,
            Prefix::new(address, length),
        )
    }

    fn set_path(&mut self, words: &mut SplitWhitespace<'_>) -> anyhow::Result<()> {
        let asns = numbers(self.rt.alloc(), words)?;
        set(self.rt, &mut self.route.path, Path::new(asns.as_slice()))
    }

    fn set_communities(&mut self, words: &mut SplitWhitespace<'_>) -> anyhow::Result<()> {
        let values = numbers(self.rt.alloc(), words)?;
        let communities = Communities::of(values.as_slice());
        set(self.rt, &mut self.route.communities, communities)
    }

    fn prepend(&mut self, words: &mut SplitWhitespace<'_>) -> anyhow::Result<()> {
        let asn = number(words)?;
        let times = byte(words)?;
        say(self.rt, self.route.path.prepend(asn, times).is_ok())?;
        Ok(())
    }

    fn evaluate(&mut self) -> anyhow::Result<()> {
        let policy = Policy {
            clauses: self.clauses.as_slice(),
            lists: self.lists.as_slice(),
        };
        show_verdict(self.rt, policy.evaluate(&mut self.route))?;
        self.show_route()
    }

    fn show_route(&self) -> anyhow::Result<()> {
        let rt = self.rt;
        print!(rt; " <")?;
        show_route(rt, &self.route)?;
        print!(rt; " >")?;
        Ok(())
    }
}

/// 10.1.0.0/16 by 7, 9 and 11, with local preference 100, MED 7 and the communities 3 and 5.
fn given() -> Option<Route> {
    Some(Route {
        prefix: Prefix::new(0x0a01_0000, 16)?,
        path: Path::new(&[7, 9, 11])?,
        metrics: Metrics {
            local_pref: 100,
            med: 7,
        },
        communities: Communities::of(&[3, 5])?,
    })
}

/// Sets a part of the route, or says that there is no such.
fn set<T: Drop>(rt: &HostRuntime, part: &mut T, value: Option<T>) -> anyhow::Result<()> {
    match value {
        Some(value) => *part = value,
        None => show(rt, "none")?,
    }
    Ok(())
}

pub fn say(rt: &HostRuntime, is_so: bool) -> io::Result<()> {
    show(rt, if is_so { "yes" } else { "no" })
}

/// Prints one answer.
pub fn show<T: fmt::Display + Drop>(rt: &HostRuntime, answer: T) -> io::Result<()> {
    print!(rt; " {answer}")
}
