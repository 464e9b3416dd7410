//! What the proofs know of a seat at the lock. No value of these types is made.

use std::collections::LinkedList;
use std::snapshot::Snapshot;

/// What a turnstile was made with.
pub struct About<T> {
    pub passes: u32,
    pub tickets: u64,
    pub opened: Snapshot<T>,
}

/// A pass that a seat stands for, and how often it has left its number.
pub struct Member {
    pub number: u32,
    pub added: u64,
}

/// How far a value has come: its mark, and its trail.
pub struct Mark {
    pub number: u64,
    pub trail: LinkedList<LinkedList<u8>>,
}

/// The entries at one moment, and how far the value had come.
pub struct Sight {
    pub entries: LinkedList<u32>,
    pub mark: Mark,
}

/// Where a seat is.
pub enum Stage {
    Outside,
    /// It has drawn this ticket.
    Waiting(u64),
    /// It found that it was its turn, and then saw this.
    Inside(Sight),
}

/// What a seat knows.
pub struct View<T> {
    pub about: Option<About<T>>,
    pub members: LinkedList<Member>,
    /// How many tickets its members may still draw.
    pub left: u64,
    pub stage: Stage,
    pub seen: Sight,
    /// What the seats had seen that were joined into this one.
    pub heard: LinkedList<Sight>,
}

impl<T> Drop for About<T> {
    fn drop(self) {
        let Self {
            passes: _,
            tickets: _,
            opened: _,
        } = self;
    }
}
