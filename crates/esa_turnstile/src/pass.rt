//! The passes of a turnstile.
ghost use Rattle.std.specs.Prelude.{◌≡◌, ◌+◌};
ghost use Rattle.esa_turnstile.specs.Entries.{times};
ghost use Rattle.esa_turnstile.specs.Views.{one, first_added, held, latest, tickets_in, carried_in};

use crate::view::View;
use atomic_table::Seat;

pub(crate) type Place<T> = Seat<Option<T>, View<T>>;

/// The right to enter a turnstile. It has a number, and knows the entries that it has seen and the tickets left to it.
///
/// What a pass has seen has its own number just as often as the pass has added it.
pub struct Pass<T> {
    pub(crate) number: u32,
    pub(crate) seat: Place<T>,
    pub ghost member: { seat.me.0.members ≡ one number (first_added seat.me.0.members) },
    pub ghost counted: { times number seat.me.0.seen.entries ≡ first_added seat.me.0.members },
    pub ghost found: { times number (latest seat.me.0).entries ≡ first_added seat.me.0.members },
    pub ghost share: { (seat.me.0.left + held seat.me.0.stage) + first_added seat.me.0.members ≡ tickets_in seat.me.0.about },
    pub ghost carries: { seat.me.1 ≡ carried_in seat.me.0.stage },
}

impl<T> Pass<T> {
    ghost use Rattle.esa_turnstile.specs.Passes.{added_of, found_of, number_of, seen_of};

    /// The number that the pass adds. The pass has seen it as often as it added it, and so it stands in what the pass
    /// found, where it is inside.
    pub fn number(&self) -> u32
        ensures number { result ≡ number_of self.now }
        ensures seen { times (number_of self.now) (seen_of self.now) ≡ added_of self.now }
        ensures found { times (number_of self.now) (found_of self.now) ≡ added_of self.now }
    {
        self.number
    }

    pub(crate) fn into_seat(self) -> Place<T>
        ensures { result ≡ self.seat }
    {
        let Self { number: _, seat } = self;
        seat
    }
}

impl<T> Drop for Pass<T> {
    fn drop(self) {
        let Self { number: _, seat: _ } = self;
    }
}

/// The value, while a pass is inside.
#[derive(Drop)]
pub struct Held<T> {
    pub value: T,
}
