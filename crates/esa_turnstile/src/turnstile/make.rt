//! How a turnstile is made, and its passes are given out.
ghost use Rattle.std.specs.Prelude.{◌≡◌, ◌+◌, ◌*◌, ◌^◌, ◌<◌, ℕ, [], ◌∷◌, length, slice_index_or, Some, IfOk, IfErr, All, ◌≤◌, vec_capacity};
ghost use Rattle.esa_turnstile.specs.Marks.{marked};
ghost use Rattle.esa_turnstile.specs.Views.{dealing};
ghost use Rattle.esa_turnstile.specs.Passes.{passes_of, tickets_of, opened_of, IsSeatOf, IsPassOf, IsNewPass, number_of};

use super::bells::Bells;
use super::{NoTurnstile, Opened, Turnstile};
use crate::logged::Logged;
use crate::pass::{Pass, Place};
use crate::plays::Deal;
use crate::view::About;
use atomic_table::{Refused, Table};
use std::alloc::Global;
use std::snapshot::Snapshot;

impl<T: Logged> Turnstile<T> {
    /// A turnstile round a value that has no entries, and its passes. Each pass has `tickets` tickets and may go to
    /// another thread. It fails for want of memory alone.
    pub fn make(
        alloc: Global,
        value: T,
        passes: u32,
        tickets: u64,
    ) -> Result<Opened<T>, NoTurnstile<T>>
        requires some { 0 < passes }
        requires supply { passes * tickets < 2 ^ 64 }
        requires empty { T.log value ≡ [] }
        requires sound { T.IsSound value }
        ensures passes { IfOk result (λ o. passes_of o.turnstile ≡ passes) }
        ensures tickets { IfOk result (λ o. tickets_of o.turnstile ≡ tickets) }
        ensures opened { IfOk result (λ o. opened_of o.turnstile ≡ value) }
        ensures count { IfOk result (λ o. length o.passes.items ≡ passes) }
        ensures dealt { IfOk result (λ o. All (λ p. IsPassOf o.turnstile p × IsNewPass tickets (T.mark value) p) o.passes.items) }
        ensures numbers { IfOk result (λ o. (x : ℕ) (d : _) → x < passes → number_of (slice_index_or o.passes.items x d) ≡ x) }
        ensures refused { IfErr result (λ e. e.value ≡ value) }
    {
        let Ok(mut dealt) = Vec::with_capacity(alloc, passes as usize) else {
            return Err(NoTurnstile { value });
        };
        let Ok(mut slots) = Vec::with_capacity(alloc, 1) else {
            return Err(NoTurnstile { value });
        };
        let about = About {
            passes,
            tickets,
            opened: Snapshot::of(&value),
        };
        slots.push_reserved(Some(value));
        match Table::new(alloc, &[0, 0], slots, &about) {
            Ok((table, mut seat)) => {
                let turnstile = Turnstile {
                    table,
                    bells: Bells::new(),
                };
                turnstile.deal_all(&mut seat, passes, &mut dealt);
                Ok(Opened {
                    turnstile,
                    passes: dealt,
                })
            }
            Err(Refused { slots }) => Err(NoTurnstile {
                value: only_value(slots),
            }),
        }
    }

    /// The passes in the order of their numbers.
    fn deal_all(&self, seat: &mut Place<T>, passes: u32, dealt: &mut Vec<Pass<T>>)
        requires table { IsSeatOf self.now seat.old }
        requires whole { passes ≡ passes_of self.now }
        requires start { seat.old.me ≡ (dealing (marked T.mark T.trail) self.now.table.shared.key 0, []) }
        requires room { (dealt.old.items ≡ []) × (passes ≤ vec_capacity dealt.old) }
        ensures count { length dealt.new.items ≡ passes }
        ensures dealt { All (λ p. IsPassOf self.now p × IsNewPass (tickets_of self.now) (T.mark (opened_of self.now)) p) dealt.new.items }
        ensures numbers { (x : ℕ) (d : _) → x < passes → number_of (slice_index_or dealt.new.items x d) ≡ x }
    {
        for number in 0..passes {
            let pass = self.deal(seat, number);
            dealt.push_reserved(pass);
        }
    }

    fn deal(&self, seat: &mut Place<T>, number: u32) -> Pass<T>
        requires table { IsSeatOf self.now seat.old }
        requires more { number < passes_of self.now }
        requires from { seat.old.me ≡ (dealing (marked T.mark T.trail) self.now.table.shared.key number, []) }
        ensures table { IsSeatOf self.now seat.new }
        ensures rest { seat.new.me ≡ (dealing (marked T.mark T.trail) self.now.table.shared.key (number + 1), []) }
        ensures pass { IsPassOf self.now result × IsNewPass (tickets_of self.now) (T.mark (opened_of self.now)) result }
        ensures number { number_of result ≡ number }
    {
        let seat = self.table.shared.split_seat::<Deal>(seat);
        Pass { number, seat }
    }
}

fn only_value<T>(mut slots: Vec<Option<T>>) -> T
    requires { (x : T) × (slots.items ≡ Some x ∷ []) }
    ensures { slots.items ≡ Some result ∷ [] }
{
    let Some(value) = slots.pop() else {
        unreachable!()
    };
    slots.destroy_empty();
    value.unwrap()
}
