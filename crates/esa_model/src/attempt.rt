//! One attempt, by numbers alone.

ghost use Rattle.std.specs.Prelude.{◌≡◌, ℕ, ◌+◌, ◌*◌, ◌<◌, ◌≤◌, All, List, length, true};
ghost use Rattle.esa_spec.specs.Completion.{full};
ghost use Rattle.esa_spec.specs.Draws.{Draw, drawn};
ghost use Rattle.esa_spec.specs.Traces.{attempt_trace, drain};
ghost use Rattle.esa_spec.specs.Verdicts.{is_finished, verdict, drained, left};
ghost use Rattle.esa_model.specs.Distributed.{IsOf};
ghost use Rattle.esa_model.specs.Passed.{AreFew, AreLinesOf};
ghost use Rattle.esa_model.specs.Recorded.{with_accesses};
ghost use Rattle.esa_model.specs.Walked.{HaveArrived};

use crate::compression::{compress, drain};
use crate::distribution::Distribution;
use crate::lines::Lines;
use crate::trace::Trace;
use esa_spec::{Coins, Verdict};

/// Makes an attempt whose list of turns is completed, records its accesses, and tells how it ends.
pub(crate) fn run_attempt<C: Coins>(
    distribution: &mut Distribution,
    coins: &C,
    attempt: u32,
    turns: &[u32],
    trace: &mut Trace,
) -> Verdict
    requires plan { C.plan coins.now ≡ distribution.old.lines.p }
    requires sizes { IsOf distribution.old.lines.p distribution.old }
    requires attempt { attempt < distribution.old.lines.p.attempts }
    requires workers { All (λ worker. worker < distribution.old.lines.p.workers) turns.now }
    requires few { length turns.now ≤ 4194304 }
    requires room { length trace.old.accesses + (2 * distribution.old.lines.p.b * distribution.old.lines.p.b + 4 * distribution.old.lines.p.b) ≤ trace.old.room }
    ensures plan { distribution.new.lines.p ≡ distribution.old.lines.p }
    ensures sizes { IsOf distribution.old.lines.p distribution.new }
    ensures finished { is_finished distribution.old.lines.p (drawn (C.target_list coins.now) (C.order_list coins.now) attempt)
        (full distribution.old.lines.p (drawn (C.target_list coins.now) (C.order_list coins.now) attempt) turns.now) ≡ true }
    ensures verdict { result ≡ verdict distribution.old.lines.p (drawn (C.target_list coins.now) (C.order_list coins.now) attempt)
        (full distribution.old.lines.p (drawn (C.target_list coins.now) (C.order_list coins.now) attempt) turns.now) }
    ensures trace { trace.new ≡ with_accesses trace.old (attempt_trace distribution.old.lines.p (drawn (C.target_list coins.now) (C.order_list coins.now) attempt) attempt
        (full distribution.old.lines.p (drawn (C.target_list coins.now) (C.order_list coins.now) attempt) turns.now)) }
{
    distribution.restart();
    match distribution.spread(coins, attempt, turns, trace) {
        Some(verdict) => verdict,
        None => finish(&distribution.lines, attempt, trace),
    }
}

/// Drains the stash and compresses, once each bucket was exchanged and no exchange failed, and tells how the attempt
/// ends.
fn finish(lines: &Lines, attempt: u32, trace: &mut Trace) -> Verdict
    requires few { AreFew lines.now }
    requires room { length trace.old.accesses + (lines.now.p.b + (lines.now.p.b * (lines.now.p.b + 1) + lines.now.p.b)) ≤ trace.old.room }
    ensures verdict { (d : Draw) (o : List ℕ) → AreLinesOf lines.now.p d o lines.now → length o ≡ lines.now.p.b → HaveArrived lines.now.p d lines.now.arrived
        → result ≡ drained lines.now.p d (left lines.now.p d o) }
    ensures trace { (d : Draw) (o : List ℕ) → AreLinesOf lines.now.p d o lines.now → length o ≡ lines.now.p.b → HaveArrived lines.now.p d lines.now.arrived
        → trace.new ≡ with_accesses trace.old (drain lines.now.p d attempt (left lines.now.p d o)) }
{
    match drain(lines, attempt, trace) {
        Some(target) => Verdict::StashLeft(target),
        None => compress(lines.plan(), lines.arrived(), attempt, trace),
    }
}
