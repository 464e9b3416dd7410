//! How a pass gets in.
ghost use Rattle.std.specs.Prelude.{◌≡◌, ◌*◌, ◌<◌, ◌≤◌, ℕ, [], ◌∷◌, None, length, All, IsNone, IfSome};
ghost use mathlib.Core.List.{IsPrefix};
ghost use Rattle.esa_turnstile.specs.declared.view.Stage.TheVariants.{Outside, Waiting};
ghost use Rattle.esa_turnstile.specs.Entries.{times};
ghost use Rattle.esa_turnstile.specs.Marks.{marked};
ghost use Rattle.esa_turnstile.specs.Views.{with_ticket, entered};
ghost use Rattle.esa_turnstile.specs.Steps.{IsFound, sight_of};
ghost use Rattle.esa_turnstile.specs.Passes.{passes_of, tickets_of, opened_of, IsSeatOf, IsSameSeat, IsPassOf, IsOutside, IsInside, number_of, seen_of, mark_of, trail_of, added_of, left_of, found_of, found_mark_of, found_trail_of};

use super::{NEXT, SERVED, SLOT, Turnstile};
use crate::logged::Logged;
use crate::pass::{Held, Pass, Place};
use crate::plays::{Draw, Look};
use std::hint;
use std::sync::Wait;

/// How often a thread looks before it sleeps.
const SPINS: u32 = 1000;

impl<T: Logged> Turnstile<T> {
    /// Waits until nobody is inside, draws a ticket, waits until all who drew one before have left, and takes the value. It
    /// takes no memory.
    pub fn enter<R: Wait>(&self, rt: &R, pass: &mut Pass<T>) -> Held<T>
        requires pass { IsPassOf self.now pass.old }
        requires outside { IsOutside pass.old }
        requires ticket { 0 < left_of pass.old }
        ensures pass { IsPassOf self.now pass.new × (number_of pass.new ≡ number_of pass.old) }
        ensures inside { IsInside pass.new }
        ensures kept { (seen_of pass.new ≡ seen_of pass.old) × (mark_of pass.new ≡ mark_of pass.old) × (trail_of pass.new ≡ trail_of pass.old) × (added_of pass.new ≡ added_of pass.old) × (left_of pass.new ≡ left_of pass.old) }
        ensures found { (found_of pass.new ≡ T.log result.value) × (found_mark_of pass.new ≡ T.mark result.value) × (found_trail_of pass.new ≡ T.trail result.value) }

        // What is found begins with all that the pass had seen, and has its number as often as it added it.
        ensures begins { IsPrefix (seen_of pass.old) (T.log result.value) }
        ensures own { times (number_of pass.old) (T.log result.value) ≡ added_of pass.old }

        // It has numbers of passes alone, each at most as often as there are tickets, and there is room for one more.
        ensures named { All (λ n. n < passes_of self.now) (T.log result.value) }
        ensures bounded { (n : ℕ) → times n (T.log result.value) ≤ tickets_of self.now }
        ensures room { length (T.log result.value) < passes_of self.now * tickets_of self.now }

        // It is sound and of the first value's origin, its mark has not fallen, and its trail begins with the one seen.
        ensures sound { T.IsSound result.value }
        ensures origin { T.origin result.value ≡ T.origin (opened_of self.now) }
        ensures mark { mark_of pass.old ≤ T.mark result.value }
        ensures trail { IsPrefix (trail_of pass.old) (T.trail result.value) }
        ensures mark_same { length (T.log result.value) ≡ length (seen_of pass.old) → T.mark result.value ≡ mark_of pass.old }
    {
        self.wait_at_door(rt);
        let ticket = self.draw(&mut pass.seat);
        let value = self.wait_turn(rt, &mut pass.seat, ticket);
        Held { value }
    }

    /// Waits until no ticket is out. So a thread that sleeps has none, and keeps nobody waiting behind it. Threads that look
    /// at the same time may all draw: then they are served in turn.
    fn wait_at_door<R: Wait>(&self, rt: &R) {
        let mut spins = 0;
        for _ in rt.forever() {
            if self.is_free() {
                return;
            }
            spins = self.pause_at_door(rt, spins);
        }
    }

    /// Whether no ticket is out.
    fn is_free(&self) -> bool {
        let served = self.table.shared.peek(SERVED);
        self.table.shared.peek(NEXT) == served
    }

    /// Spins at first, and then sleeps until somebody leaves. Returns how often it has spun since it last slept.
    fn pause_at_door<R: Wait>(&self, rt: &R, spins: u32) -> u32 {
        if spins < SPINS {
            hint::spin_loop();
            return spins + 1;
        }
        let key = self.bells.door.prepare_wait();
        if !self.is_free() {
            key.wait(rt);
        }
        0
    }

    fn draw(&self, seat: &mut Place<T>) -> u64
        requires table { IsSeatOf self.now seat.old }
        requires outside { seat.old.me.0.stage ≡ Outside }
        requires single { length seat.old.me.0.members ≡ 1 }
        requires ticket { 0 < seat.old.me.0.left }
        ensures same { IsSameSeat seat.old seat.new }
        ensures drawn { seat.new.me ≡ (with_ticket seat.old.me.0 result, seat.old.me.1) }
    {
        self.table.shared.fetch_add::<Draw>(seat, NEXT, 1)
    }

    fn wait_turn<R: Wait>(&self, rt: &R, seat: &mut Place<T>, ticket: u64) -> T
        requires table { IsSeatOf self.now seat.old }
        requires waits { (seat.old.me.0.stage ≡ Waiting ticket) × (seat.old.me.1 ≡ []) }
        ensures same { IsSameSeat seat.old seat.new }
        ensures enters { seat.new.me ≡ (entered seat.old.me.0 (sight_of T.log (marked T.mark T.trail) result), (0, None) ∷ []) }
        ensures found { IsFound T.log T.origin T.IsSound (marked T.mark T.trail) self.now.table.shared.key seat.old.me.0 result }
    {
        let mut spins = 0;
        for _ in rt.forever() {
            if let Some(value) = self.look(seat, ticket) {
                return value;
            }
            spins = self.pause_in_line(rt, spins, ticket);
        }
        unreachable!()
    }

    /// The value, where the ticket is served.
    fn look(&self, seat: &mut Place<T>, ticket: u64) -> Option<T>
        requires table { IsSeatOf self.now seat.old }
        requires waits { (seat.old.me.0.stage ≡ Waiting ticket) × (seat.old.me.1 ≡ []) }
        ensures same { IsSameSeat seat.old seat.new }
        ensures enters { IfSome result (λ x. seat.new.me ≡ (entered seat.old.me.0 (sight_of T.log (marked T.mark T.trail) x), (0, None) ∷ [])) }
        ensures found { IfSome result (λ x. IsFound T.log T.origin T.IsSound (marked T.mark T.trail) self.now.table.shared.key seat.old.me.0 x) }
        ensures waits { IsNone result → seat.new.me ≡ seat.old.me }
    {
        let table = &self.table.shared;
        let serving = table.load::<Look>(seat, SERVED);
        if serving != ticket {
            return None;
        }
        let value = table.exchange(seat, SLOT, None);
        Some(value.unwrap())
    }

    /// Spins at first, and then sleeps until somebody leaves. It looks once more before: who leaves after that look rings
    /// for a thread that is found waiting. Returns how often it has spun since it last slept.
    fn pause_in_line<R: Wait>(&self, rt: &R, spins: u32, ticket: u64) -> u32 {
        if spins < SPINS {
            hint::spin_loop();
            return spins + 1;
        }
        let key = self.bells.line.prepare_wait();
        if self.table.shared.peek(SERVED) != ticket {
            key.wait(rt);
        }
        0
    }
}
