//! Logs, which exist only in proofs: a log has no bytes, and its methods do nothing at run time.

ghost use Rattle.std.specs.Prelude.{◌≡◌, [], ◌∷◌, ◌++◌, List};
ghost use Rattle.std.specs.Coded.{coded_list};
ghost use Rattle.std.specs.Borrow.{ftrue};

use std::marker::{Model, PhantomData};

/// What was noted, in order. Its entries are what contracts see as values of `E`, of which none is ever made.
#[derive(Drop)]
pub struct Log<E> {
    of: PhantomData<E>,
    pub ghost entries: { List E } by { coded_list E.code },
}

impl<E> Model for Log<E> {
    ghost also_owns = { λ _. ftrue };
}

// It owns nothing.
unsafe impl<E> Send for Log<E> {}

/// What a log takes note of.
pub trait Noted<E> {
    /// What is noted of it.
    ghost entry: { Self → E };
}

impl<E> Log<E> {
    /// The log in which nothing is noted.
    pub fn new() -> Log<E>
        ensures { result.entries ≡ [] }
    {
        Log { of: PhantomData }
    }

    /// The log with one entry more.
    #[inline(always)]
    pub fn then<N: Noted<E>>(&self, _note: &N) -> Log<E>
        ensures { result.entries ≡ self.now.entries ++ N.entry _note.now ∷ [] }
    {
        Log { of: PhantomData }
    }
}
