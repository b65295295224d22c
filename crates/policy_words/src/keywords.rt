//! Which word is which keyword.
ghost use Rattle.std.specs.Prelude.{◌≡◌};
ghost use Rattle.policy_words.specs.Words.{action_word, item_word, joint_word, range_word, test_word};

use crate::{ActionWord, ItemWord, JointWord, RangeWord, TestWord};

/// The word that begins a list or a policy.
pub fn item_word(text: &str) -> Option<ItemWord>
    ensures { result ≡ item_word text.now }
{
    match text {
        "list" => Some(ItemWord::List),
        "from" => Some(ItemWord::From),
        "to" => Some(ItemWord::To),
        _ => None,
    }
}

/// The word that begins a part of a condition.
pub fn test_word(text: &str) -> Option<TestWord>
    ensures { result ≡ test_word text.now }
{
    match text {
        "not" => Some(TestWord::Not),
        "any" => Some(TestWord::Any),
        "range" => Some(TestWord::Range),
        "passes" => Some(TestWord::Passes),
        "marked" => Some(TestWord::Marked),
        "longer" => Some(TestWord::Longer),
        _ => None,
    }
}

/// The word that stands behind `range`.
pub fn range_word(text: &str) -> Option<RangeWord>
    ensures { result ≡ range_word text.now }
{
    match text {
        "in" => Some(RangeWord::In),
        "within" => Some(RangeWord::Within),
        _ => None,
    }
}

/// The word that stands behind a part of a condition.
pub fn joint_word(text: &str) -> Option<JointWord>
    ensures { result ≡ joint_word text.now }
{
    match text {
        "and" => Some(JointWord::And),
        "then" => Some(JointWord::Then),
        _ => None,
    }
}

/// The word that begins an action.
pub fn action_word(text: &str) -> Option<ActionWord>
    ensures { result ≡ action_word text.now }
{
    match text {
        "take" => Some(ActionWord::Take),
        "leave" => Some(ActionWord::Leave),
        "like" => Some(ActionWord::Like),
        "far" => Some(ActionWord::Far),
        "mark" => Some(ActionWord::Mark),
        "unmark" => Some(ActionWord::Unmark),
        "front" => Some(ActionWord::Front),
        _ => None,
    }
}
