//! How a pass gets out.
ghost use Rattle.std.specs.Prelude.{◌≡◌, ◌+◌, ◌≤◌, [], ◌∷◌, ◌++◌, length, true, None};
ghost use mathlib.Core.List.{IsPrefix};
ghost use Rattle.esa_turnstile.specs.Entries.{times};
ghost use Rattle.esa_turnstile.specs.Marks.{IsBelow, marked};
ghost use Rattle.esa_turnstile.specs.Views.{gone, first_number, is_inside, latest};
ghost use Rattle.esa_turnstile.specs.Steps.{sight_of};
ghost use Rattle.esa_turnstile.specs.Passes.{opened_of, IsSeatOf, IsSameSeat, IsPassOf, IsOutside, IsInside, number_of, seen_of, mark_of, trail_of, added_of, left_of, found_of, found_mark_of, found_trail_of};

use super::{SERVED, SLOT, Turnstile};
use crate::logged::Logged;
use crate::pass::{Held, Pass, Place};
use crate::plays::Advance;

impl<T: Logged> Turnstile<T> {
    /// Gives the value back, and wakes who waits. It takes no memory.
    pub fn leave(&self, pass: &mut Pass<T>, held: Held<T>)
        requires pass { IsPassOf self.now pass.old }
        requires inside { IsInside pass.old }
        requires added { T.log held.value ≡ found_of pass.old ++ number_of pass.old ∷ [] }
        requires sound { T.IsSound held.value }
        requires origin { T.origin held.value ≡ T.origin (opened_of self.now) }
        requires mark { found_mark_of pass.old ≤ T.mark held.value }
        requires trail { IsPrefix (found_trail_of pass.old) (T.trail held.value) }
        ensures pass { IsPassOf self.now pass.new × (number_of pass.new ≡ number_of pass.old) }
        ensures outside { IsOutside pass.new }
        ensures seen { (seen_of pass.new ≡ T.log held.value) × (mark_of pass.new ≡ T.mark held.value) × (trail_of pass.new ≡ T.trail held.value) }
        ensures own { times (number_of pass.new) (seen_of pass.new) ≡ added_of pass.new }
        ensures counts { (added_of pass.new ≡ added_of pass.old + 1) × (left_of pass.new + 1 ≡ left_of pass.old) }
    {
        let Held { value } = held;
        self.advance(&mut pass.seat, value);
    }

    fn advance(&self, seat: &mut Place<T>, value: T)
        requires table { IsSeatOf self.now seat.old }
        requires inside { (is_inside seat.old.me.0.stage ≡ true) × (seat.old.me.1 ≡ (0, None) ∷ []) }
        requires single { length seat.old.me.0.members ≡ 1 }
        requires added { T.log value ≡ (latest seat.old.me.0).entries ++ first_number seat.old.me.0.members ∷ [] }
        requires sound { T.IsSound value }
        requires origin { T.origin value ≡ T.origin (opened_of self.now) }
        requires mark { IsBelow (latest seat.old.me.0).mark (marked T.mark T.trail value) }
        ensures same { IsSameSeat seat.old seat.new }
        ensures gone { seat.new.me ≡ (gone seat.old.me.0 (sight_of T.log (marked T.mark T.trail) value), []) }
    {
        let table = &self.table.shared;
        let before = table.exchange(seat, SLOT, Some(value));
        let None = before else { unreachable!() };
        table.fetch_add::<Advance>(seat, SERVED, 1);
        self.bells.ring();
    }
}
