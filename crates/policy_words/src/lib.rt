//! The words of policy texts: keywords, numbers, prefixes and names.
#![tactic(auto)]

mod keywords;
mod names;
mod numbers;
mod prefixes;
mod spelling;

pub use keywords::{action_word, item_word, joint_word, range_word, test_word};
pub use names::is_name;
pub use numbers::number_of;
pub use prefixes::prefix_of;
pub use spelling::text_of;

/// The words that begin a list or a policy.
#[derive(Clone, Copy)]
pub enum ItemWord {
    List,
    From,
    To,
}

/// The words that begin a part of a condition.
#[derive(Clone, Copy)]
pub enum TestWord {
    Not,
    Any,
    Range,
    Passes,
    Marked,
    Longer,
}

/// The words behind `range`.
#[derive(Clone, Copy)]
pub enum RangeWord {
    In,
    Within,
}

/// The words behind a part of a condition.
#[derive(Clone, Copy)]
pub enum JointWord {
    And,
    Then,
}

/// The words that begin an action.
#[derive(Clone, Copy)]
pub enum ActionWord {
    Take,
    Leave,
    Like,
    Far,
    Mark,
    Unmark,
    Front,
}
