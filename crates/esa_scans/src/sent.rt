//! Pieces put one after another.

ghost use Rattle.std.specs.Prelude.{◌≡◌, ◌+◌, ◌≤◌, ◌++◌, [], length, IfOk};

use std::alloc::{AllocError, Global};
use std::marker::Model;

/// Pieces put one after another, into room for so many bytes.
#[derive(Drop)]
pub(crate) struct Sent {
    bytes: Vec<u8>,
    count: usize,
}

impl Model for Sent {
    ghost use Rattle.std.specs.Prelude.{◌≤◌, length, take};
    ghost use Rattle.esa_scans.specs.Joined.{Joined};

    ghost Value = { Joined };

    ghost view = { λ s. record { bytes = take s.count s.bytes.items; room = length s.bytes.items } };

    ghost invariant = { λ s. s.count ≤ length s.bytes.items };
}

impl Sent {
    /// Room for so many bytes. Nothing was put.
    pub(crate) fn make(alloc: Global, room: usize) -> Result<Sent, AllocError>
        ensures { IfOk result (λ sent. sent ≡ record { bytes = []; room = room }) }
    {
        Ok(Sent {
            bytes: vec![in alloc; 0; room]?,
            count: 0,
        })
    }

    /// Forgets what was put.
    pub(crate) fn clear(&mut self)
        ensures { self.new ≡ record self.old { bytes = [] } }
    {
        self.count = 0;
    }

    /// Puts a piece behind the others.
    pub(crate) fn put(&mut self, piece: &[u8])
        requires { length self.old.bytes + length piece.now ≤ self.old.room }
        ensures { self.new ≡ record self.old { bytes = self.old.bytes ++ piece.now } }
    {
        let end = self.count + piece.len();
        self.bytes[self.count..end].copy_from_slice(piece);
        self.count = end;
    }

    /// All that was put.
    pub(crate) fn all(&self) -> &[u8]
        ensures { result.now ≡ self.now.bytes }
    {
        &self.bytes[..self.count]
    }
}
