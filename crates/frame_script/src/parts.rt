//! The parts of an UPDATE in words.
use peer_messages::Update;
use script_words::{Prefix, Problem, Words, read_number};
use std::alloc::Global;

/// What the words at hand say.
#[derive(Clone, Copy, Debug, PartialEq, Eq)]
enum Part {
    Announced,
    Withdrawn,
    Path,
    Med,
    Communities,
}

impl Part {
    /// The part that begins with this word, if one does.
    fn named(word: &str) -> Option<Part> {
        match word {
            "by" => Some(Part::Path),
            "med" => Some(Part::Med),
            "communities" => Some(Part::Communities),
            "withdraw" => Some(Part::Withdrawn),
            _ => None,
        }
    }

    /// Takes in one word, and says what the next is of; none where another part has to begin.
    fn take(self, update: &mut Update, word: &str) -> Result<Option<Part>, Problem> {
        match self {
            Part::Announced => update.announce(word.parse::<Prefix>()?)?,
            Part::Withdrawn => update.withdraw(word.parse::<Prefix>()?)?,
            Part::Path => update.add_asn(read_number(word)?)?,
            Part::Communities => update.add_community(read_number(word)?)?,
            Part::Med => {
                update.set_med(read_number(word)?);
                return Ok(None);
            }
        }
        Ok(Some(self))
    }
}

/// The UPDATE of a line that announces.
pub fn read_announcement(heap: Global, words: Words<'_>) -> Result<Update, Problem> {
    let mut update = Update::new(heap);
    let mut part = Some(Part::Announced);
    for word in words.rest() {
        let next = Part::named(word);
        if next.is_none() {
            part = part.ok_or(Problem::Extra)?.take(&mut update, word)?;
            continue;
        }
        end(part)?;
        if next == Some(Part::Path) {
            update.begin_path(heap);
        }
        part = next;
    }
    end(part)?;
    Ok(update)
}

/// That a part may end here.
fn end(part: Option<Part>) -> Result<(), Problem> {
    if part == Some(Part::Med) {
        return Err(Problem::Missing);
    }
    Ok(())
}

/// The UPDATE of a line that only withdraws.
pub fn read_withdrawal(heap: Global, words: Words<'_>) -> Result<Update, Problem> {
    let mut update = Update::new(heap);
    for word in words.rest() {
        update.withdraw(word.parse::<Prefix>()?)?;
    }
    Ok(update)
}
