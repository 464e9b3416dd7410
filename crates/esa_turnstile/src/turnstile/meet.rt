//! How one pass learns what another has seen.
ghost use Rattle.std.specs.Prelude.{◌≡◌, [], max};
ghost use mathlib.Core.List.{IsPrefix};
ghost use Rattle.esa_turnstile.specs.declared.view.Stage.TheVariants.{Outside};
ghost use Rattle.esa_turnstile.specs.Views.{joined, note_of};
ghost use Rattle.esa_turnstile.specs.Steps.{HasHeard};
ghost use Rattle.esa_turnstile.specs.Passes.{IsSeatOf, IsSameSeat, IsPassOf, IsOutside, number_of, seen_of, mark_of, trail_of, added_of, left_of};

use super::{SERVED, Turnstile};
use crate::logged::Logged;
use crate::pass::{Pass, Place};
use crate::plays::{Both, Hear, Note};

impl<T: Logged> Turnstile<T> {
    /// Tells `into` what `from` has seen. It takes no memory and waits for nobody.
    pub fn meet(&self, from: &mut Pass<T>, into: &mut Pass<T>)
        requires from { IsPassOf self.now from.old × IsOutside from.old }
        requires into { IsPassOf self.now into.old × IsOutside into.old }
        ensures same { from.new ≡ from.old }
        ensures pass { IsPassOf self.now into.new × IsOutside into.new × (number_of into.new ≡ number_of into.old) }
        ensures counts { (added_of into.new ≡ added_of into.old) × (left_of into.new ≡ left_of into.old) }
        ensures seen_from { IsPrefix (seen_of from.old) (seen_of into.new) }
        ensures seen_into { IsPrefix (seen_of into.old) (seen_of into.new) }
        ensures mark { mark_of into.new ≡ max (mark_of into.old) (mark_of from.old) }
        ensures trail_from { IsPrefix (trail_of from.old) (trail_of into.new) }
        ensures trail_into { IsPrefix (trail_of into.old) (trail_of into.new) }
    {
        let note = self.note(&mut from.seat);
        self.join(&mut into.seat, note);
        self.hear(&mut into.seat);
    }

    /// A seat that has seen as much, and stands for no pass.
    pub(super) fn note(&self, seat: &mut Place<T>) -> Place<T>
        requires table { IsSeatOf self.now seat.old }
        requires outside { seat.old.me.0.stage ≡ Outside }
        ensures same { IsSameSeat seat.old seat.new × (seat.new.me ≡ seat.old.me) }
        ensures note { IsSeatOf self.now result × (result.me ≡ (note_of seat.old.me.0, [])) }
    {
        self.table.shared.split_seat::<Note>(seat)
    }

    pub(super) fn join(&self, seat: &mut Place<T>, other: Place<T>)
        requires table { IsSeatOf self.now seat.old × IsSeatOf self.now other }
        requires outside { (seat.old.me.0.stage ≡ Outside) × (other.me.0.stage ≡ Outside) × (other.me.1 ≡ []) }
        ensures same { IsSameSeat seat.old seat.new }
        ensures both { seat.new.me ≡ (joined seat.old.me.0 other.me.0, seat.old.me.1) }
    {
        self.table.shared.join_seat::<Both>(seat, other);
    }

    fn hear(&self, seat: &mut Place<T>)
        requires table { IsSeatOf self.now seat.old }
        ensures same { IsSameSeat seat.old seat.new × (seat.new.me ≡ seat.old.me) }
        ensures heard { HasHeard seat.new.me.0 }
    {
        self.table.shared.load::<Hear>(seat, SERVED);
    }
}
