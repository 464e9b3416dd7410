//! The rule of the lock, and what each step tells. These types are for the proofs alone.
ghost use Rattle.esa_turnstile.specs.Lock.{Kept};
ghost use Rattle.esa_turnstile.specs.Marks.{marked};
ghost use Rattle.esa_turnstile.specs.Steps.{Draws, Looks, Advances, Hears};
ghost use Rattle.esa_turnstile.specs.Views.{dealing, rest_of, one_of, note_of, joined, spent};

use crate::logged::Logged;
use crate::view::{About, View};
use atomic_table::{Join, Play, Split, TableRule};

pub struct Lock;

impl<T: Logged> TableRule<Option<T>, View<T>, About<T>> for Lock {
    ghost holds = { Kept T.log T.origin T.IsSound (marked T.mark T.trail) };

    ghost first = { λ about. dealing (marked T.mark T.trail) about 0 };
}

/// Draws a ticket.
pub struct Draw;

impl<T> Play<Option<T>, View<T>> for Draw {
    ghost then = { Draws };
}

/// Looks whether it is the seat's turn, and takes the slot if it is.
pub struct Look;

impl<T: Logged> Play<Option<T>, View<T>> for Look {
    ghost then = { Looks T.log T.origin T.IsSound (marked T.mark T.trail) };
}

/// Gives the slot back, and serves the next ticket.
pub struct Advance;

impl<T: Logged> Play<Option<T>, View<T>> for Advance {
    ghost then = { Advances T.log (marked T.mark T.trail) };
}

/// Learns that what it has heard of begins what it has seen.
pub struct Hear;

impl<T> Play<Option<T>, View<T>> for Hear {
    ghost then = { Hears };
}

/// Cuts off the pass with the least number that is not given out yet.
pub struct Deal;

impl<T> Split<View<T>> for Deal {
    ghost left = { rest_of };

    ghost right = { one_of };
}

/// Copies what a seat has seen.
pub struct Note;

impl<T> Split<View<T>> for Note {
    ghost left = { λ v. v };

    ghost right = { note_of };
}

/// Takes in what another seat stands for and has seen.
pub struct Both;

impl<T> Join<View<T>> for Both {
    ghost both = { joined };

    ghost spent = { spent };
}
