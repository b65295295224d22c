//! Values of other crates as they stand in a text.
ghost use Rattle.std.specs.Prelude.{Some};
ghost use Rattle.policy_print.specs.Printed.{action_text, part_text, test_text};

use policy::{Action, Part, Test};
use std::fmt;

/// A value of another crate, to be printed.
#[derive(Clone, Copy)]
pub(crate) struct Shown<T>(pub T);

impl fmt::Display for Shown<Part> {
    ghost output = { λ x. Some (part_text x.0) };

    fn fmt<W: fmt::Write>(&self, f: &mut fmt::Formatter<W>) -> fmt::Result {
        let test = Shown(self.0.test);
        if self.0.negated {
            write!(f, "not {test}")
        } else {
            write!(f, "{test}")
        }
    }
}

impl fmt::Display for Shown<Test> {
    ghost output = { λ x. Some (test_text x.0) };

    fn fmt<W: fmt::Write>(&self, f: &mut fmt::Formatter<W>) -> fmt::Result {
        match self.0 {
            Test::Any => write!(f, "any"),
            Test::PrefixIn { list } => write!(f, "range in l{list}"),
            Test::PrefixWithin { list } => write!(f, "range within l{list}"),
            Test::Passes { asn } => write!(f, "passes {asn}"),
            Test::HasCommunity { community } => write!(f, "marked {community}"),
            Test::LongerThan { asns } => write!(f, "longer {asns}"),
        }
    }
}

impl fmt::Display for Shown<Action> {
    ghost output = { λ x. Some (action_text x.0) };

    fn fmt<W: fmt::Write>(&self, f: &mut fmt::Formatter<W>) -> fmt::Result {
        match self.0 {
            Action::Accept => write!(f, "take"),
            Action::Reject => write!(f, "leave"),
            Action::SetLocalPref(local_pref) => write!(f, "like {local_pref}"),
            Action::SetMed(med) => write!(f, "far {med}"),
            Action::AddCommunity(community) => write!(f, "mark {community}"),
            Action::RemoveCommunity(community) => write!(f, "unmark {community}"),
            Action::Prepend { asn, times } => write!(f, "front {asn} times {times}"),
        }
    }
}
