//! What each pass of an intake knows, and the rule that all of them keep. No value of these types is made.

use crate::sealed::Sealed;
use crossbeam_queue::RuledArrayQueue;
use crossbeam_queue::protocol::{Join, Lesson, Outcome, Protocol, Split};
use esa_params::Form;
use std::collections::LinkedList;

/// What a sender had put when its pass was given back.
pub struct Closed {
    pub number: u64,
    pub put: LinkedList<Sealed>,
}

/// What a pass knows.
pub struct Hand {
    /// Whether it may put.
    pub puts: bool,
    /// The form of all envelopes.
    pub form: Form,
    /// Its number: 0 is the taker's, and the senders' are counted from 1.
    pub number: u64,
    /// What it has put, in order.
    pub put: LinkedList<Sealed>,
    /// Of the taker: how many senders were made, what it has taken, and what the senders had put that are given back.
    pub senders: u64,
    pub taken: LinkedList<Sealed>,
    pub closed: LinkedList<Closed>,
}

/// What waits is what was put and was not taken, and all of it is of one form.
pub(crate) struct KeepsAll;

impl Protocol<Sealed, Hand> for KeepsAll {
    ghost use Rattle.esa_intake.specs.Keeping.{Kept, first};

    ghost holds = { Kept };

    ghost first = { first };
}

/// The taker's pass is cut into itself and that of a new sender, of an intake of form One.
pub(crate) struct NewSenderOfOne;

impl Split<Hand> for NewSenderOfOne {
    ghost use Rattle.esa_params.specs.declared.form.Form.TheVariants.{One};
    ghost use Rattle.esa_intake.specs.Keeping.{with_sender, new_sender};

    ghost left = { with_sender One };

    ghost right = { new_sender One };
}

/// The same of form Two.
pub(crate) struct NewSenderOfTwo;

impl Split<Hand> for NewSenderOfTwo {
    ghost use Rattle.esa_params.specs.declared.form.Form.TheVariants.{Two};
    ghost use Rattle.esa_intake.specs.Keeping.{with_sender, new_sender};

    ghost left = { with_sender Two };

    ghost right = { new_sender Two };
}

/// A sender's pass is given back to the taker.
pub(crate) struct GivenBack;

impl Join<Hand> for GivenBack {
    ghost use Rattle.esa_intake.specs.Keeping.{with_closed, spent};

    ghost both = { with_closed };

    ghost spent = { spent };
}

/// A sender puts an envelope.
pub(crate) struct Puts;

impl Outcome<Sealed, Hand> for Puts {
    ghost use Rattle.std.specs.Prelude.{◌≡◌};
    ghost use Rattle.esa_intake.specs.Keeping.{with_put};

    ghost then = { λ before sealed now. now ≡ with_put before sealed };
}

impl Lesson<Sealed, Hand> for Puts {
    ghost use Rattle.esa_intake.specs.Keeping.{SenderSees};

    ghost fact = { SenderSees };
}

/// The taker takes an envelope.
pub(crate) struct Takes;

impl Outcome<Sealed, Hand> for Takes {
    ghost use Rattle.std.specs.Prelude.{◌≡◌};
    ghost use Rattle.esa_intake.specs.Keeping.{IsSealedOf, with_taken};

    ghost then = { λ before sealed now. (now ≡ with_taken before sealed) × IsSealedOf before.form sealed };
}

impl Lesson<Sealed, Hand> for Takes {
    ghost use Rattle.esa_intake.specs.Keeping.{TakerSees};

    ghost fact = { TakerSees };
}

pub(crate) type Line = RuledArrayQueue<Sealed, Hand, KeepsAll>;
