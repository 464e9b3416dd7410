//! Where threads sleep until they can get in.
//!
//! No clause speaks of a bell: whether a thread sleeps, and for how long, changes nothing of what it finds inside.

use crossbeam_utils::sync::EventCount;

/// The bells of a turnstile.
#[derive(Drop)]
pub(crate) struct Bells {
    /// For threads that have no ticket.
    pub(crate) door: EventCount,
    /// For threads that have one, which isn't served yet.
    pub(crate) line: EventCount,
}

impl Bells {
    pub(crate) fn new() -> Bells {
        Bells {
            door: EventCount::new(),
            line: EventCount::new(),
        }
    }

    /// Rings where somebody has left: for one thread that has no ticket, and for all that have one.
    pub(crate) fn ring(&self) {
        self.line.notify_all();
        self.door.notify_one();
    }
}
