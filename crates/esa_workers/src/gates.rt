//! What may stand between a worker's turn and its private work.

use esa_floor::Turn;

/// Sees each turn of each worker, once the worker has left the turnstile. All workers share one gate.
pub trait Gate {
    /// A worker of this number passes, after this turn. It may be made to wait.
    fn pass(&self, number: u32, turn: Turn);
}

/// A gate that does nothing.
#[derive(Clone, Copy, Drop, Debug)]
pub struct OpenGate;

impl Gate for OpenGate {
    fn pass(&self, number: u32, turn: Turn) {
        let _ = (number, turn);
    }
}
