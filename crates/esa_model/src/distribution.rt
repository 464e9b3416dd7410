//! The distribution of an attempt, by numbers alone: its turns, up to the one that finishes it.

ghost use Rattle.std.specs.Prelude.{◌≡◌, ℕ, ◌+◌, ◌*◌, ◌<◌, ◌≤◌, ◌^◌, ◌++◌, ◌∷◌, [], List, Some, None, All, IfOk, IfSome, IfNone, length, nat_lt, option_to_list, if◌then◌else◌};
ghost use Rattle.esa_spec.specs.Completion.{full};
ghost use Rattle.esa_spec.specs.Draws.{drawn};
ghost use Rattle.esa_params.specs.Slots.{IsPlanned};
ghost use Rattle.esa_spec.specs.Traces.{asked, chunk_slot, spread};
ghost use Rattle.esa_spec.specs.Turns.{exchanged, is_write};
ghost use Rattle.esa_spec.specs.declared.event.Verdict.TheVariants.{StashOverflow};
ghost use Rattle.esa_model.specs.Recorded.{with_accesses};
ghost use Rattle.esa_model.specs.Seats.{event_of_next, IsPlannedEvent};
ghost use Rattle.esa_model.specs.Passed.{AreFew, AreLines, IsExchanged, all_staying};

use crate::completion::{most_turns, worker_at};
use crate::lines::Lines;
use crate::rounds::Rounds;
use crate::trace::Trace;
use esa_params::{Op, Plan, Region, Slot};
use esa_spec::{Coins, Event, Verdict};
use std::alloc::{AllocError, Global};

/// The distribution of an attempt as far as its turns go: the rounds, the lines, and how many chunks are written.
#[derive(Drop)]
pub(crate) struct Distribution {
    pub(crate) rounds: Rounds,
    pub(crate) lines: Lines,
    pub(crate) written: u32,
}

impl Distribution {
    ghost use Rattle.esa_model.specs.Distributed.{IsOf, Stands, IsWritten, IsOver, begun};

    /// A plan's distribution, before any turn.
    pub(crate) fn make(alloc: Global, plan: Plan) -> Result<Distribution, AllocError>
        ensures { IfOk result (λ distribution. distribution ≡ begun plan) }
    {
        let rounds = Rounds::make(alloc, plan.b(), plan.workers())?;
        let lines = Lines::make(alloc, plan)?;
        Ok(Distribution {
            rounds,
            lines,
            written: 0,
        })
    }

    /// Goes back to before any turn.
    pub(crate) fn restart(&mut self)
        requires { IsOf self.old.lines.p self.old }
        ensures { self.new ≡ begun self.old.lines.p }
    {
        self.rounds.restart();
        self.lines.restart();
        self.written = 0;
    }

    /// Does what a turn does, and tells the verdict where it fails.
    fn act<C: Coins>(&mut self, coins: &C, attempt: u32, event: Event) -> Option<Verdict>
        requires plan { C.plan coins.now ≡ self.old.lines.p }
        requires attempt { attempt < self.old.lines.p.attempts }
        requires planned { IsPlannedEvent self.old.lines.p.b event }
        requires few { AreFew self.old.lines }
        requires fewer { self.old.written < 2 ^ 31 }
        requires lines { AreLines self.old.lines }
        ensures plan { self.new.lines.p ≡ self.old.lines.p }
        ensures lines { AreLines self.new.lines }
        ensures rounds { self.new.rounds ≡ self.old.rounds }
        ensures written { self.new.written ≡ self.old.written + (if is_write event then 1 else 0) }
        ensures quiet { exchanged event ≡ None → (self.new.lines ≡ self.old.lines) × (result ≡ None) }
        ensures exchanged { (bucket : ℕ) → exchanged event ≡ Some bucket
            → IsExchanged (C.target_list coins.now attempt bucket) self.old.lines self.new.lines }
        ensures verdict { (bucket : ℕ) → exchanged event ≡ Some bucket
            → result ≡ (if nat_lt self.old.lines.p.s (all_staying self.old.lines.p.c self.new.lines.arrived self.old.lines.gone) then Some (StashOverflow bucket) else None) }
    {
        match event {
            Event::Exchange(bucket) => {
                let total = self.lines.exchange(coins, attempt, bucket);
                if u64::from(self.lines.plan().s()) < total {
                    Some(Verdict::StashOverflow(bucket))
                } else {
                    None
                }
            }
            Event::Write {
                bucket: _,
                target: _,
            } => {
                self.written += 1;
                None
            }
            Event::Claim(_) => None,
            Event::Read(_) => None,
            Event::Done => None,
            Event::Idle => None,
        }
    }

    /// Makes a worker's turn, and tells the verdict where it fails.
    fn turn<C: Coins>(
        &mut self,
        coins: &C,
        attempt: u32,
        worker: u32,
        trace: &mut Trace,
    ) -> Option<Verdict>
        requires plan { C.plan coins.now ≡ self.old.lines.p }
        requires attempt { attempt < self.old.lines.p.attempts }
        requires worker { worker < self.old.lines.p.workers }
        requires sizes { IsOf self.old.lines.p self.old }
        requires few { AreFew self.old.lines }
        requires rounds { self.old.rounds.begun < 2 ^ 31 }
        requires written { self.old.written < 2 ^ 31 }
        requires room { length trace.old.accesses < trace.old.room }
        ensures sizes { IsOf self.old.lines.p self.new }
        ensures goes_on { result ≡ None → (h : List ℕ) → Stands self.old.lines.p (drawn (C.target_list coins.now) (C.order_list coins.now) attempt) h self.old
            → Stands self.old.lines.p (drawn (C.target_list coins.now) (C.order_list coins.now) attempt) (h ++ worker ∷ []) self.new }
        ensures ends { IfSome result (λ verdict. (h : List ℕ) → Stands self.old.lines.p (drawn (C.target_list coins.now) (C.order_list coins.now) attempt) h self.old
            → IsOver self.old.lines.p (drawn (C.target_list coins.now) (C.order_list coins.now) attempt) (h ++ worker ∷ []) verdict) }
        ensures trace { trace.new ≡ with_accesses trace.old (option_to_list (asked self.old.lines.p attempt (event_of_next self.old.rounds worker))) }
    {
        let event = self.rounds.take_turn(worker);
        ask(self.lines.plan(), attempt, event, trace);
        self.act(coins, attempt, event)
    }

    /// Makes the turns of a list and those of its completion, up to the one that finishes the attempt, and tells the
    /// verdict where an exchange fails.
    pub(crate) fn spread<C: Coins>(
        &mut self,
        coins: &C,
        attempt: u32,
        turns: &[u32],
        trace: &mut Trace,
    ) -> Option<Verdict>
        requires plan { C.plan coins.now ≡ self.old.lines.p }
        requires attempt { attempt < self.old.lines.p.attempts }
        requires workers { All (λ worker. worker < self.old.lines.p.workers) turns.now }
        requires few { length turns.now ≤ 4194304 }
        requires begun { self.old ≡ begun self.old.lines.p }
        requires room { length trace.old.accesses + self.old.lines.p.b + self.old.lines.p.b * self.old.lines.p.b < trace.old.room }
        ensures sizes { IsOf self.old.lines.p self.new }
        ensures written { IfNone result (IsWritten self.old.lines.p (drawn (C.target_list coins.now) (C.order_list coins.now) attempt)
            (full self.old.lines.p (drawn (C.target_list coins.now) (C.order_list coins.now) attempt) turns.now) self.new) }
        ensures over { IfSome result (IsOver self.old.lines.p (drawn (C.target_list coins.now) (C.order_list coins.now) attempt)
            (full self.old.lines.p (drawn (C.target_list coins.now) (C.order_list coins.now) attempt) turns.now)) }
        ensures trace { trace.new ≡ with_accesses trace.old (spread self.old.lines.p (drawn (C.target_list coins.now) (C.order_list coins.now) attempt) attempt
            (full self.old.lines.p (drawn (C.target_list coins.now) (C.order_list coins.now) attempt) turns.now)) }
    {
        let chunks = chunks_of(self.lines.plan());
        for made in 0..most_turns(self.lines.plan(), turns) {
            if self.written == chunks {
                return None;
            }
            let worker = worker_at(self.lines.plan(), turns, made);
            if let Some(verdict) = self.turn(coins, attempt, worker, trace) {
                return Some(verdict);
            }
        }
        None
    }
}

/// Records the access that a turn makes, where it makes one.
fn ask(plan: &Plan, attempt: u32, event: Event, trace: &mut Trace)
    requires planned { IsPlannedEvent plan.now.b event }
    requires room { length trace.old.accesses < trace.old.room }
    ensures { trace.new ≡ with_accesses trace.old (option_to_list (asked plan.now attempt event)) }
{
    match event {
        Event::Read(bucket) => {
            let slot = Slot {
                region: Region::Input,
                index: bucket,
            };
            trace.push(plan.access(attempt, Op::Read, slot));
        }
        Event::Write { bucket, target } => {
            let slot = chunk_slot(plan, bucket, target);
            trace.push(plan.access(attempt, Op::Write, slot));
        }
        Event::Claim(_) => {}
        Event::Exchange(_) => {}
        Event::Done => {}
        Event::Idle => {}
    }
}

/// The block of the chunk of a bucket for a target.
pub(crate) fn chunk_slot(plan: &Plan, bucket: u32, target: u32) -> Slot
    requires bucket { bucket < plan.now.b }
    requires target { target < plan.now.b }
    ensures value { result ≡ chunk_slot plan.now bucket target }
    ensures planned { IsPlanned plan.now result }
{
    Slot {
        region: Region::Mid,
        index: bucket * plan.b() + target,
    }
}

/// How many chunks are written in an attempt.
fn chunks_of(plan: &Plan) -> u32
    ensures { result ≡ plan.now.b * plan.now.b }
{
    plan.b() * plan.b()
}
