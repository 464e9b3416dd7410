//! A whole run: its memory is taken, and it runs.

ghost use Rattle.std.specs.Prelude.{◌≡◌, ◌≢◌, ◌∷◌, ℕ, ◌+◌, ◌<◌, ◌≤◌, ◌^◌, [], Some, IfErr, IfOk, length};
ghost use Rattle.esa_model.specs.Forecast.{made};
ghost use Rattle.esa_model.specs.Turns.{AreWorkers};
ghost use Rattle.esa_params.specs.Form.{envelope_length};
ghost use Rattle.esa_params.specs.Sizes.{ArePlanned};
ghost use Rattle.esa_params.specs.Slots.{greatest_trace};
ghost use Rattle.esa_spec.specs.Draws.{drawn};
ghost use Rattle.esa_spec.specs.Histories.{lists};
ghost use Rattle.esa_shuffle.specs.Loading.{HasGiven};
ghost use Rattle.esa_shuffle.specs.Records.{IsShuffledFrom};
ghost use Rattle.esa_shuffle.specs.Runs.{AreFresh, EndWithCut, EndsRun, entries_before, entries_in, opens_last, seen_of};

use crate::failures::Failures;
use crate::runs::{Ran, run_on};
use crate::tools::Tools;
use esa_device::{Device, Recorder};
use esa_envelope::Keys;
use esa_floor::{Floor, Told};
use esa_model::Turns;
use esa_outside::Records;
use esa_params::Plan;
use esa_spec::Coins;
use std::alloc::Global;
use std::marker::Brand;

/// There is no memory for a run. The recorder comes back as it was.
#[derive(Drop)]
pub struct NoRun<V: Device> {
    pub recorder: Recorder<V>,
}

/// How many entries an attempt adds to the history at most: the owner's, and its turns, completed.
fn entries_of(plan: &Plan, turns: &Turns, attempt: u32) -> u64
    ensures value { result ≡ entries_in plan.now turns.now attempt }
    ensures few { result ≤ 6000000 }
{
    let b = u64::from(plan.b());
    turns.list(attempt).len() as u64 + b * (b + 3) * u64::from(plan.workers()) + 1
}

/// How many entries the history of a run has at most.
fn most_entries(plan: &Plan, turns: &Turns) -> u64
    ensures value { result ≡ entries_before plan.now turns.now plan.now.attempts + 1 }
    ensures few { result < 2 ^ 63 }
    ensures planned { ArePlanned plan.now }
{
    let mut entries = 1;
    for attempt in 0..plan.attempts() {
        entries += entries_of(plan, turns, attempt);
    }
    entries
}

/// Takes the memory of a run and runs, where the draws are told.
fn run_told<G: Told, V: Device, C: Coins, R: Records>(
    alloc: Global,
    plan: Plan,
    outer: Keys,
    run: Keys,
    coins: &C,
    batch: &mut R,
    recorder: Recorder<V>,
    turns: &Turns,
) -> Result<Ran<V>, NoRun<V>>
    requires coins { C.plan coins.now ≡ plan }
    requires plan { G.plan ≡ plan }
    requires draws { (a : ℕ) → G.draws a ≡ drawn (C.target_list coins.now) (C.order_list coins.now) a }
    requires ready { recorder.plan ≡ Some plan }
    requires trace { recorder.trace ≡ [] }
    requires room { greatest_trace plan ≤ recorder.room }
    requires numbers { AreWorkers plan.workers turns.now }
    requires count { R.count batch.old ≡ plan.n }
    requires size { R.size batch.old ≡ envelope_length plan.form }
    ensures ends { IfOk result (λ ran. EndsRun plan G.draws (made plan G.draws turns.now) (seen_of V.faults (V.faults recorder.device) (R.faults batch.old) ran.recorder ran.history (R.faults batch.new))
        (opens_last plan run ran.recorder.last) ran.failures ran.outcome) }
    ensures cut { IfOk result (λ ran. EndWithCut plan (lists plan.workers ran.history) (made plan G.draws turns.now) ran.recorder.trace ran.outcome) }
    ensures given { IfOk result (λ ran. HasGiven plan (R.told batch.old) (R.part (R.grounds batch.old)) (R.heard batch.old) (R.heard batch.new) (ran.history ≢ plan.workers ∷ [])
        (IsShuffledFrom plan G.draws (made plan G.draws turns.now) outer run ran.history ran.recorder.log ran.outcome)) }
    ensures fresh { IfOk result (λ ran. AreFresh plan ran.recorder.trace) }
    ensures ready { IfOk result (λ ran. ran.recorder.plan ≡ Some plan) }
    ensures room { IfOk result (λ ran. greatest_trace plan ≤ length ran.recorder.trace + ran.recorder.room) }
    ensures told { R.told batch.new ≡ R.told batch.old }
    ensures grounds { R.grounds batch.new ≡ R.grounds batch.old }
    ensures count { R.count batch.new ≡ R.count batch.old }
    ensures size { R.size batch.new ≡ R.size batch.old }
    ensures given_back { IfErr result (λ none. none.recorder ≡ recorder) }
    ensures untouched { IfErr result (λ none. batch.new ≡ batch.old) }
{
    recorder.keeps_its_log();
    let entries = most_entries(&plan, turns);
    let Ok(mut tools) = Tools::make(alloc, coins, plan, outer, run) else {
        return Err(NoRun { recorder });
    };
    let Ok(failures) = Failures::make(alloc) else {
        return Err(NoRun { recorder });
    };
    match Floor::<V, G>::make(alloc, plan, outer, run, coins, recorder, entries) {
        Ok(floor) => Ok(run_on(floor, &mut tools, failures, coins, batch, turns)),
        Err(none) => Err(NoRun {
            recorder: none.recorder,
        }),
    }
}

/// A run on one thread: the batch is loaded, and attempts are made, each with the turns of its list, completed, until one is
/// good or each of the plan has failed. A block that is not put or got ends it, and so does a bucket whose records could not be
/// read.
///
/// Whatever is drawn, the accesses, the failures and the history are those of the definition, by the outcome. All memory is
/// taken before the first access. Where there is none, nothing was done.
pub fn run_turns<V: Device, C: Coins, R: Records>(
    alloc: Global,
    plan: Plan,
    outer: Keys,
    run: Keys,
    coins: &C,
    batch: &mut R,
    recorder: Recorder<V>,
    turns: &Turns,
) -> Result<Ran<V>, NoRun<V>>
    requires coins { C.plan coins.now ≡ plan }
    requires ready { recorder.plan ≡ Some plan }
    requires trace { recorder.trace ≡ [] }
    requires room { greatest_trace plan ≤ recorder.room }
    requires numbers { AreWorkers plan.workers turns.now }
    requires count { R.count batch.old ≡ plan.n }
    requires size { R.size batch.old ≡ envelope_length plan.form }
    ensures ends { IfOk result (λ ran. let ds = drawn (C.target_list coins.now) (C.order_list coins.now) in
        EndsRun plan ds (made plan ds turns.now) (seen_of V.faults (V.faults recorder.device) (R.faults batch.old) ran.recorder ran.history (R.faults batch.new))
        (opens_last plan run ran.recorder.last) ran.failures ran.outcome) }

    // Where an access cut the run, the history ends with that access.
    ensures cut { IfOk result (λ ran. let ds = drawn (C.target_list coins.now) (C.order_list coins.now) in
        EndWithCut plan (lists plan.workers ran.history) (made plan ds turns.now) ran.recorder.trace ran.outcome) }

    // What the load has read are the records of the batch: of all its buckets, where an attempt was begun. Where the log of the
    // run is faithful, these are the records that the attempt which succeeded put out, each at its place, and however the run
    // ended they are what each block that was written has.
    ensures given { IfOk result (λ ran. let ds = drawn (C.target_list coins.now) (C.order_list coins.now) in
        HasGiven plan (R.told batch.old) (R.part (R.grounds batch.old)) (R.heard batch.old) (R.heard batch.new) (ran.history ≢ plan.workers ∷ [])
        (IsShuffledFrom plan ds (made plan ds turns.now) outer run ran.history ran.recorder.log ran.outcome)) }

    // No write repeats a nonce.
    ensures fresh { IfOk result (λ ran. AreFresh plan ran.recorder.trace) }

    // The recorder can go on with two scans of the output.
    ensures ready { IfOk result (λ ran. ran.recorder.plan ≡ Some plan) }
    ensures room { IfOk result (λ ran. greatest_trace plan ≤ length ran.recorder.trace + ran.recorder.room) }

    // The batch is the same one.
    ensures told { R.told batch.new ≡ R.told batch.old }
    ensures grounds { R.grounds batch.new ≡ R.grounds batch.old }
    ensures count { R.count batch.new ≡ R.count batch.old }
    ensures size { R.size batch.new ≡ R.size batch.old }

    // Where there is no memory, nothing was done.
    ensures given_back { IfErr result (λ none. none.recorder ≡ recorder) }
    ensures untouched { IfErr result (λ none. batch.new ≡ batch.old) }
{
    run_told::<Brand, V, C, R>(alloc, plan, outer, run, coins, batch, recorder, turns)
}
