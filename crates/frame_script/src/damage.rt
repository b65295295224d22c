//! Damage to the next message.
use script_words::Problem;

#[derive(Clone, Copy)]
pub enum Damage {
    /// All bits of the byte at this place are turned.
    Flip(usize),
    /// Only so many bytes are kept.
    Cut(usize),
}

impl Damage {
    /// Does it to a message.
    pub fn apply(self, message: &mut Vec<u8>) -> Result<(), Problem> {
        match self {
            Damage::Flip(place) => *message.get_mut(place).ok_or(Problem::Shorter)? ^= 255,
            Damage::Cut(count) if count <= message.len() => message.truncate(count),
            Damage::Cut(_) => return Err(Problem::Shorter),
        }
        Ok(())
    }
}
