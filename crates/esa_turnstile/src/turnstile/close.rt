//! How the value is given up.
ghost use Rattle.std.specs.Prelude.{◌≡◌, ◌≤◌, ◌<◌, [], length, All};
ghost use mathlib.Core.List.{IsPrefix};
ghost use Rattle.esa_turnstile.specs.declared.view.Stage.TheVariants.{Outside};
ghost use Rattle.esa_turnstile.specs.Entries.{times};
ghost use Rattle.esa_turnstile.specs.Marks.{marked};
ghost use Rattle.esa_turnstile.specs.Views.{note_of, joined};
ghost use Rattle.esa_turnstile.specs.Closing.{Knows, IsSettled};
ghost use Rattle.esa_turnstile.specs.Passes.{passes_of, opened_of, IsSeatOf, IsPassOf, IsOutside, number_of, seen_of, mark_of, trail_of, added_of};

use super::{SLOT, Turnstile};
use crate::logged::Logged;
use crate::pass::{Pass, Place};

impl<T: Logged> Turnstile<T> {
    /// Gives the value up. It wants all passes back, in any order. It takes no memory and waits for nobody.
    pub fn close(self, passes: Vec<Pass<T>>) -> T
        requires count { length passes.items ≡ passes_of self }
        requires passes { All (λ p. IsPassOf self p × IsOutside p) passes.items }

        // The entries begin with what each pass has seen, and have its number as often as it added it.
        ensures begins { All (λ p. IsPrefix (seen_of p) (T.log result)) passes.items }
        ensures counts { All (λ p. times (number_of p) (T.log result) ≡ added_of p) passes.items }
        ensures named { All (λ n. n < passes_of self) (T.log result) }

        // It is sound and of the first value's origin, its mark has not fallen, and its trail begins with each one seen.
        ensures sound { T.IsSound result }
        ensures origin { T.origin result ≡ T.origin (opened_of self) }
        ensures mark { All (λ p. mark_of p ≤ T.mark result) passes.items }
        ensures trail { All (λ p. IsPrefix (trail_of p) (T.trail result)) passes.items }
        ensures mark_same { All (λ p. length (T.log result) ≡ length (seen_of p) → T.mark result ≡ mark_of p) passes.items }
    {
        let seat = self.gather(passes);
        self.open(seat)
    }

    /// One seat that stands for all passes.
    fn gather(&self, mut passes: Vec<Pass<T>>) -> Place<T>
        requires count { length passes.items ≡ passes_of self.now }
        requires passes { All (λ p. IsPassOf self.now p × IsOutside p) passes.items }
        ensures table { IsSeatOf self.now result }
        ensures outside { (result.me.0.stage ≡ Outside) × (result.me.1 ≡ []) }
        ensures whole { length result.me.0.members ≡ passes_of self.now }
        ensures knows { All (Knows result.me.0) passes.items }
    {
        let Some(last) = passes.pop() else {
            unreachable!()
        };
        let mut seat = self.first(last);
        while let Some(next) = passes.pop() {
            self.take_in(&mut seat, next);
        }
        seat
    }

    /// A seat that stands for this pass, and has heard of what it had seen.
    fn first(&self, pass: Pass<T>) -> Place<T>
        requires pass { IsPassOf self.now pass × IsOutside pass }
        ensures table { IsSeatOf self.now result }
        ensures outside { (result.me.0.stage ≡ Outside) × (result.me.1 ≡ []) }
        ensures both { result.me.0 ≡ joined (note_of pass.seat.me.0) pass.seat.me.0 }
    {
        let mut other = pass.into_seat();
        let mut seat = self.note(&mut other);
        self.join(&mut seat, other);
        seat
    }

    fn take_in(&self, seat: &mut Place<T>, pass: Pass<T>)
        requires table { IsSeatOf self.now seat.old }
        requires outside { (seat.old.me.0.stage ≡ Outside) × (seat.old.me.1 ≡ []) }
        requires pass { IsPassOf self.now pass × IsOutside pass }
        ensures table { IsSeatOf self.now seat.new }
        ensures outside { (seat.new.me.0.stage ≡ Outside) × (seat.new.me.1 ≡ []) }
        ensures both { seat.new.me.0 ≡ joined seat.old.me.0 pass.seat.me.0 }
    {
        self.join(seat, pass.into_seat());
    }

    /// Nobody else has a seat.
    fn open(self, seat: Place<T>) -> T
        requires table { IsSeatOf self seat }
        requires outside { seat.me.0.stage ≡ Outside }
        requires whole { length seat.me.0.members ≡ passes_of self }
        ensures settled { IsSettled T.log T.origin T.IsSound (marked T.mark T.trail) self.table.shared.key seat.me.0 result }
    {
        let Turnstile { table, bells: _ } = self;
        let mut closed = table.close_with(seat);
        let value = closed.take(SLOT);
        closed.free();
        value.unwrap()
    }
}
