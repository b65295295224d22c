//! Policies: which routes are accepted, and what is changed on them.
#![tactic(auto)]

ghost use Rattle.rows.specs.Rows.{held};
ghost use Rattle.policy.specs.Starts.{Starts};

use prefix::Prefix;
use rows::Row;

mod actions;
mod conditions;
mod evaluation;
mod laws;
mod prefix_lists;
mod starts;

/// Up to 64 prefixes, to which conditions refer by the number of the list. Addresses that begin with the same 10 bits share a bucket, and for each bucket there is the place of the first prefix that can hold one of it, so that looking for a prefix begins there.
#[derive(Clone, Copy)]
pub struct PrefixList {
    prefixes: Row<Prefix, 64>,
    starts: [u8; 1024],
    ghost started: { Starts starts (held prefixes) },
}

/// What a part of a condition asks of a route.
#[derive(Clone, Copy, Debug, PartialEq, Eq)]
pub enum Test {
    Any,
    PrefixIn { list: u8 },
    PrefixWithin { list: u8 },
    Passes { asn: u32 },
    HasCommunity { community: u32 },
    LongerThan { asns: u32 },
}

#[derive(Clone, Copy, Debug, PartialEq, Eq)]
pub struct Part {
    pub negated: bool,
    pub test: Test,
}

/// Up to 16 parts, all of which must hold.
#[derive(Clone, Copy)]
pub struct Condition {
    parts: Row<Part, 16>,
}

/// What a clause does where its condition holds.
#[derive(Clone, Copy, Debug, PartialEq, Eq)]
pub enum Action {
    Accept,
    Reject,
    SetLocalPref(u32),
    SetMed(u32),
    AddCommunity(u32),
    RemoveCommunity(u32),
    Prepend { asn: u32, times: u8 },
}

#[derive(Clone, Copy)]
pub struct Clause {
    pub condition: Condition,
    pub action: Action,
}

/// A row of clauses, with the lists that they refer to.
#[derive(Clone, Copy)]
pub struct Policy<'a> {
    pub clauses: &'a [Clause],
    pub lists: &'a [PrefixList],
}

#[derive(Clone, Copy, Debug, PartialEq, Eq)]
pub enum Verdict {
    Accepted,
    Rejected,
}
