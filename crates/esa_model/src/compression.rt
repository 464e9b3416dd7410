//! The drain and the compression of an attempt, by numbers alone.

ghost use Rattle.std.specs.Prelude.{◌≡◌, ℕ, suc, ◌+◌, ◌-◌, ◌*◌, ◌<◌, ◌≤◌, ◌∷◌, [], map, length, slice_index, unwrap_or};
ghost use Rattle.std.specs.List.{range_with_len};
ghost use Rattle.esa_params.specs.Sizes.{ArePlanned, below};
ghost use Rattle.esa_spec.specs.Draws.{Draw};
ghost use Rattle.esa_spec.specs.Traces.{written_tail, import_reads};
ghost use Rattle.esa_spec.specs.Verdicts.{Import, Put, imported, steps_of, steps};
ghost use Rattle.esa_spec.specs.declared.event.Verdict.TheVariants.{Good};
ghost use Rattle.esa_model.specs.Recorded.{with_accesses};
ghost use Rattle.esa_model.specs.Passed.{AreFew};
ghost use Rattle.esa_model.specs.Walked.{first_over, HaveArrived, IsReached, IsWithin, AreMade, Grows};

use crate::distribution::chunk_slot;
use crate::lines::Lines;
use crate::trace::Trace;
use esa_params::{Op, Plan, Region, Slot};
use esa_spec::Verdict;

/// Writes a tail for each target, up to the first for which more waits than a tail holds, and tells that target.
pub(crate) fn drain(lines: &Lines, attempt: u32, trace: &mut Trace) -> Option<u32>
    requires few { AreFew lines.now }
    requires room { length trace.old.accesses + lines.now.p.b ≤ trace.old.room }
    ensures over { result ≡ first_over lines.now }
    ensures trace { trace.new ≡ with_accesses trace.old (map (written_tail lines.now.p attempt) (below (unwrap_or result lines.now.p.b))) }
{
    let plan = lines.plan();
    for target in 0..plan.b() {
        if plan.k() < lines.waiting(target) {
            return Some(target);
        }
        let slot = Slot {
            region: Region::Tail,
            index: target,
        };
        trace.push(plan.access(attempt, Op::Write, slot));
    }
    None
}

/// How far the compression has come: how many intermediate buckets are imported, and how many places came with them.
#[derive(Clone, Copy)]
pub(crate) struct Window {
    imported: u32,
    reached: u64,
}

/// Makes the steps of the compression, up to the first that can't be done, and tells how they end.
pub(crate) fn compress(plan: &Plan, arrived: &[u32], attempt: u32, trace: &mut Trace) -> Verdict
    requires planned { ArePlanned plan.now }
    requires each { length arrived.now ≡ plan.now.b }
    requires few { (i : ℕ) → i < plan.now.b → slice_index arrived.now i ≤ 67108864 }
    requires room { length trace.old.accesses + (plan.now.b * (plan.now.b + 1) + plan.now.b) ≤ trace.old.room }
    ensures made { (d : Draw) → HaveArrived plan.now d arrived.now → AreMade plan.now d attempt (steps plan.now) result trace.old trace.new }
{
    let mut window = Window {
        imported: 0,
        reached: 0,
    };
    for output in 0..plan.b() {
        match put_out(plan, arrived, attempt, output, &mut window, trace) {
            Verdict::Good => {}
            bad => return bad,
        }
    }
    Verdict::Good
}

/// Imports what belongs in the window of an output bucket, and writes that bucket.
fn put_out(
    plan: &Plan,
    arrived: &[u32],
    attempt: u32,
    output: u32,
    window: &mut Window,
    trace: &mut Trace,
) -> Verdict
    requires planned { ArePlanned plan.now }
    requires each { length arrived.now ≡ plan.now.b }
    requires few { (i : ℕ) → i < plan.now.b → slice_index arrived.now i ≤ 67108864 }
    requires output { output < plan.now.b }
    requires window { IsWithin plan.now window.old }
    requires imported { window.old.imported ≡ imported plan.now output }
    requires room { length trace.old.accesses + ((imported plan.now (suc output) - imported plan.now output) * (plan.now.b + 1) + 1) ≤ trace.old.room }
    ensures within { IsWithin plan.now window.new }
    ensures imported { result ≡ Good → window.new.imported ≡ imported plan.now (suc output) }
    ensures reached { result ≡ Good → (d : Draw) → HaveArrived plan.now d arrived.now → IsReached plan.now d window.old → IsReached plan.now d window.new }
    ensures made { (d : Draw) → HaveArrived plan.now d arrived.now → IsReached plan.now d window.old
        → AreMade plan.now d attempt (steps_of plan.now output) result trace.old trace.new }
    ensures grows { Grows trace.old trace.new ((imported plan.now (suc output) - imported plan.now output) * (plan.now.b + 1) + 1) }
{
    match import_ahead(plan, arrived, attempt, output, window, trace) {
        Verdict::Good => put(plan, attempt, output, *window, trace),
        bad => bad,
    }
}

/// Imports what belongs in the window of an output bucket.
fn import_ahead(
    plan: &Plan,
    arrived: &[u32],
    attempt: u32,
    output: u32,
    window: &mut Window,
    trace: &mut Trace,
) -> Verdict
    requires planned { ArePlanned plan.now }
    requires each { length arrived.now ≡ plan.now.b }
    requires few { (i : ℕ) → i < plan.now.b → slice_index arrived.now i ≤ 67108864 }
    requires output { output < plan.now.b }
    requires window { IsWithin plan.now window.old }
    requires imported { window.old.imported ≡ imported plan.now output }
    requires room { length trace.old.accesses + (imported plan.now (suc output) - imported plan.now output) * (plan.now.b + 1) ≤ trace.old.room }
    ensures within { IsWithin plan.now window.new }
    ensures imported { result ≡ Good → window.new.imported ≡ imported plan.now (suc output) }
    ensures reached { result ≡ Good → (d : Draw) → HaveArrived plan.now d arrived.now → IsReached plan.now d window.old → IsReached plan.now d window.new }
    ensures made { (d : Draw) → HaveArrived plan.now d arrived.now → IsReached plan.now d window.old
        → AreMade plan.now d attempt (map (Import output) (range_with_len (imported plan.now output) (imported plan.now (suc output) - imported plan.now output))) result trace.old trace.new }
    ensures grows { Grows trace.old trace.new ((imported plan.now (suc output) - imported plan.now output) * (plan.now.b + 1)) }
{
    let end = (output + plan.w()).min(plan.b());
    for _ahead in window.imported..end {
        match import(plan, arrived, attempt, output, window, trace) {
            Verdict::Good => {}
            bad => return bad,
        }
    }
    Verdict::Good
}

/// Imports the next intermediate bucket, for an output bucket. It reads also where it overflows the queue.
fn import(
    plan: &Plan,
    arrived: &[u32],
    attempt: u32,
    output: u32,
    window: &mut Window,
    trace: &mut Trace,
) -> Verdict
    requires planned { ArePlanned plan.now }
    requires each { length arrived.now ≡ plan.now.b }
    requires few { slice_index arrived.now window.old.imported ≤ 67108864 }
    requires output { output < plan.now.b }
    requires window { IsWithin plan.now window.old }
    requires left { window.old.imported < plan.now.b }
    requires room { length trace.old.accesses + (plan.now.b + 1) ≤ trace.old.room }
    ensures within { IsWithin plan.now window.new }
    ensures imported { window.new.imported ≡ window.old.imported + 1 }
    ensures reached { (d : Draw) → HaveArrived plan.now d arrived.now → IsReached plan.now d window.old → IsReached plan.now d window.new }
    ensures made { (d : Draw) → HaveArrived plan.now d arrived.now → IsReached plan.now d window.old
        → AreMade plan.now d attempt (Import output window.old.imported ∷ []) result trace.old trace.new }
    ensures grows { Grows trace.old trace.new (plan.now.b + 1) }
{
    let target = window.imported;
    window.imported = target + 1;
    window.reached += u64::from(arrived[target as usize]);
    read_import(plan, attempt, target, trace);
    if u64::from(plan.first(output)) + u64::from(plan.q()) < window.reached {
        Verdict::QueueOverflow(target)
    } else {
        Verdict::Good
    }
}

/// Reads the chunks and the tail of a target.
fn read_import(plan: &Plan, attempt: u32, target: u32, trace: &mut Trace)
    requires target { target < plan.now.b }
    requires room { length trace.old.accesses + (plan.now.b + 1) ≤ trace.old.room }
    ensures { trace.new ≡ with_accesses trace.old (import_reads plan.now attempt target) }
{
    for bucket in 0..plan.b() {
        let slot = chunk_slot(plan, bucket, target);
        trace.push(plan.access(attempt, Op::Read, slot));
    }
    let slot = Slot {
        region: Region::Tail,
        index: target,
    };
    trace.push(plan.access(attempt, Op::Read, slot));
}

/// Writes an output bucket, unless too few places have come.
fn put(plan: &Plan, attempt: u32, output: u32, window: Window, trace: &mut Trace) -> Verdict
    requires output { output < plan.now.b }
    requires imported { window.imported ≡ imported plan.now (suc output) }
    requires room { length trace.old.accesses + 1 ≤ trace.old.room }
    ensures made { (d : Draw) → IsReached plan.now d window → AreMade plan.now d attempt (Put output ∷ []) result trace.old trace.new }
    ensures grows { Grows trace.old trace.new 1 }
{
    if window.reached < u64::from(plan.first(output)) + u64::from(plan.size(output)) {
        return Verdict::QueueStarved(output);
    }
    let slot = Slot {
        region: Region::Output,
        index: output,
    };
    trace.push(plan.access(attempt, Op::Write, slot));
    Verdict::Good
}
