//! The accesses of a forecast, in room that was reserved.

ghost use Rattle.std.specs.Prelude.{◌≡◌, ◌<◌, [], ◌∷◌, ◌++◌, length, IfOk};
ghost use Rattle.esa_model.specs.Recorded.{nothing_recorded};

use esa_params::Access;
use std::alloc::{AllocError, Global};
use std::marker::Model;

/// Accesses, one after another, and room for more.
#[derive(Drop)]
pub(crate) struct Trace {
    accesses: Vec<Access>,
}

impl Model for Trace {
    ghost use Rattle.std.specs.Vec.{vec_capacity};
    ghost use Rattle.esa_model.specs.Recorded.{Recorded};

    ghost Value = { Recorded };

    ghost view = { λ trace. record { room = vec_capacity trace.accesses; accesses = trace.accesses.items } };
}

impl Trace {
    /// No access, and room for so many.
    pub(crate) fn reserve(alloc: Global, room: u32) -> Result<Trace, AllocError>
        ensures { IfOk result (λ trace. trace ≡ nothing_recorded room) }
    {
        let accesses = Vec::with_capacity(alloc, room as usize)?;
        Ok(Trace { accesses })
    }

    /// Forgets the accesses.
    pub(crate) fn clear(&mut self)
        ensures { self.new ≡ nothing_recorded self.old.room }
    {
        self.accesses.clear();
    }

    /// Records one access more.
    pub(crate) fn push(&mut self, access: Access)
        requires { length self.old.accesses < self.old.room }
        ensures { self.new ≡ record self.old { accesses = self.old.accesses ++ access ∷ [] } }
    {
        self.accesses.push_reserved(access);
    }

    /// The accesses.
    pub(crate) fn accesses(&self) -> &[Access]
        ensures { result.now ≡ self.now.accesses }
    {
        &self.accesses
    }
}
