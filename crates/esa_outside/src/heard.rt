//! What the log of a cabinet or a printer notes.

use crate::log::{Log, Noted};
use std::marker::Model;
use std::mem::size_of;

/// What was heard of a call. No value of it is ever made: contracts see the entries of a log as events.
pub(crate) struct Event;

impl Model for Event {
    ghost use Rattle.std.specs.Prelude.{[]};
    ghost use Rattle.esa_outside.specs.Heard.{Event, event_code, printed};

    ghost Value = { Event };

    ghost coded = { event_code };

    ghost view = { λ _. printed [] };
}

const _: () = prove!(size_of::<Log<Event>>() == 0);

/// A call that did not fail, as it is added to a log.
#[derive(Clone, Copy, Drop)]
pub(crate) enum Note<'a> {
    /// The length of a file was told.
    LengthOf(&'a str, u64),
    /// Bytes of a file were given, from a place on.
    PartOf(&'a str, u64, &'a [u8]),
    /// A file was started.
    Started(&'a str),
    /// Bytes were added at a file's end.
    Added(&'a str, &'a [u8]),
    /// A text was printed with its newline.
    Printed(&'a [u8]),
}

impl<'a> Noted<Event> for Note<'a> {
    ghost use Rattle.esa_outside.specs.Noted.{event_of};

    ghost entry = { event_of };
}
