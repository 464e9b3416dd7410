//! What a forecast says, in room that was reserved.

ghost use Rattle.std.specs.Prelude.{◌≡◌, ◌+◌, ◌*◌, ◌<◌, ◌≤◌, ◌++◌, ◌∷◌, [], All, IfOk, length, true};
ghost use Rattle.esa_spec.specs.Completion.{full};
ghost use Rattle.esa_spec.specs.Draws.{drawn};
ghost use Rattle.esa_spec.specs.Traces.{load, attempt_trace, scan};
ghost use Rattle.esa_spec.specs.Verdicts.{is_finished, verdict};
ghost use Rattle.esa_model.specs.Distributed.{IsOf};
ghost use Rattle.esa_model.specs.Forecast.{nothing_foretold};
ghost use Rattle.esa_model.specs.Recorded.{with_accesses};

use crate::attempt::run_attempt;
use crate::distribution::Distribution;
use crate::trace::Trace;
use esa_params::{Access, Op, Plan, Region, Slot};
use esa_spec::{Coins, Verdict};
use std::alloc::{AllocError, Global};
use std::marker::Model;

/// How the attempts of a shuffle end, up to the first that succeeds, and all accesses that the shuffle makes, with the
/// two scans of its output.
#[derive(Drop)]
pub struct Forecast {
    verdicts: Vec<Verdict>,
    trace: Trace,
}

// Clauses see the verdicts and the accesses, and how many of each there is room for.
impl Model for Forecast {
    ghost use Rattle.std.specs.Vec.{vec_capacity};
    ghost use Rattle.esa_model.specs.Forecast.{Foretold};

    ghost Value = { Foretold };

    ghost view = { λ f. record { verdicts = f.verdicts.items; most_verdicts = vec_capacity f.verdicts; accesses = f.trace.accesses; most_accesses = f.trace.room } };
}

impl Forecast {
    /// How the attempts end.
    pub fn verdicts(&self) -> &[Verdict]
        ensures { result.now ≡ self.now.verdicts }
    {
        &self.verdicts
    }

    /// The accesses, in their order.
    pub fn accesses(&self) -> &[Access]
        ensures { result.now ≡ self.now.accesses }
    {
        self.trace.accesses()
    }

    /// Nothing yet, and room for all that a shuffle of the plan can do.
    pub(crate) fn make(alloc: Global, plan: &Plan) -> Result<Forecast, AllocError>
        ensures { IfOk result (λ forecast. forecast ≡ nothing_foretold plan.now) }
    {
        let verdicts = Vec::with_capacity(alloc, plan.attempts() as usize)?;
        let trace = Trace::reserve(alloc, plan.greatest_trace())?;
        Ok(Forecast { verdicts, trace })
    }

    /// Begins anew, with the accesses of the load.
    pub(crate) fn begin(&mut self, plan: &Plan)
        requires { plan.now.b ≤ self.old.most_accesses }
        ensures { self.new ≡ record self.old { verdicts = []; accesses = load plan.now } }
    {
        self.verdicts.clear();
        self.trace.clear();
        write_input(plan, &mut self.trace);
    }

    /// Adds an attempt, and tells how it ends.
    pub(crate) fn attempt<C: Coins>(
        &mut self,
        distribution: &mut Distribution,
        coins: &C,
        attempt: u32,
        turns: &[u32],
    ) -> Verdict
        requires plan { C.plan coins.now ≡ distribution.old.lines.p }
        requires sizes { IsOf distribution.old.lines.p distribution.old }
        requires attempt { attempt < distribution.old.lines.p.attempts }
        requires workers { All (λ worker. worker < distribution.old.lines.p.workers) turns.now }
        requires few { length turns.now ≤ 4194304 }
        requires room { length self.old.accesses + (2 * distribution.old.lines.p.b * distribution.old.lines.p.b + 4 * distribution.old.lines.p.b) ≤ self.old.most_accesses }
        requires verdict_room { length self.old.verdicts < self.old.most_verdicts }
        ensures plan { distribution.new.lines.p ≡ distribution.old.lines.p }
        ensures sizes { IsOf distribution.old.lines.p distribution.new }
        ensures finished { is_finished distribution.old.lines.p (drawn (C.target_list coins.now) (C.order_list coins.now) attempt)
            (full distribution.old.lines.p (drawn (C.target_list coins.now) (C.order_list coins.now) attempt) turns.now) ≡ true }
        ensures verdict { result ≡ verdict distribution.old.lines.p (drawn (C.target_list coins.now) (C.order_list coins.now) attempt)
            (full distribution.old.lines.p (drawn (C.target_list coins.now) (C.order_list coins.now) attempt) turns.now) }
        ensures told { self.new ≡ record self.old {
          verdicts = self.old.verdicts ++ result ∷ [];
          accesses = self.old.accesses ++ attempt_trace distribution.old.lines.p (drawn (C.target_list coins.now) (C.order_list coins.now) attempt) attempt
              (full distribution.old.lines.p (drawn (C.target_list coins.now) (C.order_list coins.now) attempt) turns.now);
        } }
    {
        let verdict = run_attempt(distribution, coins, attempt, turns, &mut self.trace);
        self.verdicts.push_reserved(verdict);
        verdict
    }

    /// Adds a scan of the output of an attempt.
    pub(crate) fn scan(&mut self, plan: &Plan, attempt: u32)
        requires { length self.old.accesses + plan.now.b ≤ self.old.most_accesses }
        ensures { self.new ≡ record self.old { accesses = self.old.accesses ++ scan plan.now attempt } }
    {
        read_output(plan, attempt, &mut self.trace);
    }
}

/// Writes each block of the input.
fn write_input(plan: &Plan, trace: &mut Trace)
    requires { length trace.old.accesses + plan.now.b ≤ trace.old.room }
    ensures { trace.new ≡ with_accesses trace.old (load plan.now) }
{
    for bucket in 0..plan.b() {
        let slot = Slot {
            region: Region::Input,
            index: bucket,
        };
        trace.push(plan.access(0, Op::Write, slot));
    }
}

/// Reads each block of the output of an attempt.
fn read_output(plan: &Plan, attempt: u32, trace: &mut Trace)
    requires { length trace.old.accesses + plan.now.b ≤ trace.old.room }
    ensures { trace.new ≡ with_accesses trace.old (scan plan.now attempt) }
{
    for bucket in 0..plan.b() {
        let slot = Slot {
            region: Region::Output,
            index: bucket,
        };
        trace.push(plan.access(attempt, Op::Read, slot));
    }
}
