//! The plainest value for a turnstile: a list of numbers with reserved room. Here it stands for any value.
ghost use Rattle.std.specs.Prelude.{◌≡◌, ◌<◌, ◌∷◌, ◌++◌, [], length, map, IfOk};
ghost use Rattle.esa_turnstile.specs.Rolls.{entries_in, room_in};

use crate::logged::Logged;
use std::alloc::{AllocError, Global};

/// A list of numbers, and room for more.
#[derive(Drop)]
pub struct Roll {
    entries: Vec<u32>,
}

impl Roll {
    /// An empty roll with room for so many numbers.
    pub fn make(alloc: Global, room: usize) -> Result<Roll, AllocError>
        ensures empty { IfOk result (λ r. entries_in r ≡ []) }
        ensures room { IfOk result (λ r. room_in r ≡ room) }
    {
        let entries = Vec::with_capacity(alloc, room)?;
        Ok(Roll { entries })
    }

    /// Adds a number at the end. It takes no memory.
    pub fn add(&mut self, number: u32)
        requires { length (entries_in self.old) < room_in self.old }
        ensures added { entries_in self.new ≡ entries_in self.old ++ number ∷ [] }
        ensures room { room_in self.new ≡ room_in self.old }
    {
        self.entries.push_reserved(number);
    }

    /// Takes all numbers out.
    pub fn clear(&mut self)
        ensures empty { entries_in self.new ≡ [] }
        ensures room { room_in self.new ≡ room_in self.old }
    {
        self.entries.clear();
    }
}

/// Its origin is its room. It is always sound, its mark is the number of its entries, and each of them is a text of its
/// trail.
impl Logged for Roll {
    type Origin = usize;

    ghost log = { entries_in };

    ghost origin = { room_in };

    ghost IsSound = { λ _. Unit {0} };

    ghost mark = { λ r. length (entries_in r) };

    ghost trail = { λ r. map (λ n. n ∷ []) (entries_in r) };

    fn entries(&self) -> &[u32] {
        self.entries.as_slice()
    }
}
