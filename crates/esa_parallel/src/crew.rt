//! A run of the shuffle by a crew: its memory is taken, and it runs.

ghost use Rattle.std.specs.Prelude.{◌≡◌, ◌≢◌, ◌∷◌, ◌+◌, ◌*◌, ◌<◌, ◌≤◌, ℕ, [], All, Some, IfErr, IfOk, length, slice_index_or};
ghost use Rattle.esa_floor.specs.Marks.{mark_of};
ghost use Rattle.esa_params.specs.Form.{envelope_length};
ghost use Rattle.esa_params.specs.Sizes.{ArePlanned};
ghost use Rattle.esa_params.specs.Slots.{greatest_trace};
ghost use Rattle.esa_shuffle.specs.Loading.{HasGiven, IsNewFloor};
ghost use Rattle.esa_shuffle.specs.Records.{IsShuffledFrom};
ghost use Rattle.esa_shuffle.specs.Runs.{AreFresh, EndsRun, opens_last, seen_of};
ghost use Rattle.esa_spec.specs.Draws.{drawn};
ghost use Rattle.esa_spec.specs.Histories.{lists};
ghost use Rattle.esa_turnstile.specs.Passes.{IsNewPass, IsPassOf, number_of, opened_of, passes_of, tickets_of};
ghost use Rattle.esa_workers.specs.Works.{most_turns};
ghost use Rattle.esa_parallel.specs.Crews.{AllAreDone, AllTookPart};

use crate::parallel::run_opened;
use crate::tools::Tools;
use esa_device::{Device, Recorder};
use esa_envelope::Keys;
use esa_floor::{Floor, Told};
use esa_outside::Records;
use esa_params::Plan;
use esa_shuffle::{Failures, NoRun, Ran};
use esa_spec::Coins;
use esa_turnstile::{Opened, Turnstile};
use esa_workers::{Gate, OpenGate};
use std::alloc::Global;
use std::marker::Brand;
use std::sync::Wait;
use std::thread::Threads;

/// How many turns a worker has at most in all attempts: so many tickets each pass gets.
fn most_tickets(plan: &Plan) -> u64
    ensures value { result ≡ plan.now.attempts * most_turns plan.now }
    ensures few { result ≤ 1100000 }
    ensures planned { ArePlanned plan.now }
{
    let b = u64::from(plan.b());
    u64::from(plan.attempts()) * (b * (b + 3) + 1)
}

/// Opens a turnstile on a floor on which nothing was done, with a pass for each worker and one for the owner. The history has
/// room for all tickets. Where there is no memory the recorder comes back.
fn open<G: Told, V: Device, C: Coins>(
    alloc: Global,
    plan: Plan,
    outer: Keys,
    run: Keys,
    coins: &C,
    recorder: Recorder<V>,
) -> Result<Opened<Floor<V, G>>, NoRun<V>>
    requires coins { C.plan coins.now ≡ plan }
    requires plan { G.plan ≡ plan }
    requires draws { (a : ℕ) → G.draws a ≡ drawn (C.target_list coins.now) (C.order_list coins.now) a }
    requires ready { recorder.plan ≡ Some plan }
    requires trace { recorder.trace ≡ [] }
    requires room { greatest_trace plan ≤ recorder.room }
    ensures new { IfOk result (λ opened. IsNewFloor V.faults G.plan G.draws (opened_of opened.turnstile)) }
    ensures passes { IfOk result (λ opened. passes_of opened.turnstile ≡ plan.workers + 1) }
    ensures tickets { IfOk result (λ opened. tickets_of opened.turnstile ≡ plan.attempts * most_turns plan) }
    ensures room { IfOk result (λ opened. passes_of opened.turnstile * tickets_of opened.turnstile ≤ (opened_of opened.turnstile).room) }
    ensures each { IfOk result (λ opened. length opened.passes.items ≡ plan.workers + 1) }
    ensures dealt { IfOk result (λ opened. All (λ p. IsPassOf opened.turnstile p × IsNewPass (tickets_of opened.turnstile) (mark_of (opened_of opened.turnstile)) p) opened.passes.items) }
    ensures numbers { IfOk result (λ opened. (x : ℕ) (d : _) → x < plan.workers + 1 → number_of (slice_index_or opened.passes.items x d) ≡ x) }
    ensures outer { IfOk result (λ opened. (opened_of opened.turnstile).outer ≡ outer) }
    ensures run { IfOk result (λ opened. (opened_of opened.turnstile).run ≡ run) }
    ensures faults { IfOk result (λ opened. (opened_of opened.turnstile).faults ≡ V.faults recorder.device) }
    ensures given_back { IfErr result (λ none. none.recorder ≡ recorder) }
{
    let passes = plan.workers() + 1;
    let tickets = most_tickets(&plan);
    let entries = u64::from(passes) * tickets;
    match Floor::<V, G>::make(alloc, plan, outer, run, coins, recorder, entries) {
        Ok(floor) => {
            floor.keeps_its_log();
            match Turnstile::make(alloc, floor, passes, tickets) {
                Ok(opened) => Ok(opened),
                Err(none) => Err(NoRun {
                    recorder: none.value.give().recorder,
                }),
            }
        }
        Err(none) => Err(NoRun {
            recorder: none.recorder,
        }),
    }
}

/// Takes the memory of a run and runs, where the draws are told. Each worker passes the gate after each of its turns.
pub(crate) fn run_told<
    G: Told + Send + Drop,
    V: Device + Send + Drop,
    C: Coins + Sync,
    H: Gate + Sync,
    B: Records,
    R: Threads + Wait + Sync,
>(
    rt: &R,
    alloc: Global,
    plan: Plan,
    outer: Keys,
    run: Keys,
    coins: &C,
    batch: &mut B,
    recorder: Recorder<V>,
    gate: &H,
) -> Result<Ran<V>, NoRun<V>>
    requires coins { C.plan coins.now ≡ plan }
    requires plan { G.plan ≡ plan }
    requires draws { (a : ℕ) → G.draws a ≡ drawn (C.target_list coins.now) (C.order_list coins.now) a }
    requires ready { recorder.plan ≡ Some plan }
    requires trace { recorder.trace ≡ [] }
    requires room { greatest_trace plan ≤ recorder.room }
    requires count { B.count batch.old ≡ plan.n }
    requires size { B.size batch.old ≡ envelope_length plan.form }
    ensures ends { IfOk result (λ ran. EndsRun plan G.draws (lists plan.workers ran.history)
        (seen_of V.faults (V.faults recorder.device) (B.faults batch.old) ran.recorder ran.history (B.faults batch.new))
        (opens_last plan run ran.recorder.last) ran.failures ran.outcome) }
    ensures few { IfOk result (λ ran. length (lists plan.workers ran.history) ≤ plan.attempts) }
    ensures took_part { IfOk result (λ ran. AllTookPart plan (lists plan.workers ran.history)) }
    ensures done { IfOk result (λ ran. AllAreDone plan G.draws (lists plan.workers ran.history) ran.outcome) }
    ensures given { IfOk result (λ ran. HasGiven plan (B.told batch.old) (B.part (B.grounds batch.old)) (B.heard batch.old) (B.heard batch.new) (ran.history ≢ plan.workers ∷ [])
        (IsShuffledFrom plan G.draws (lists plan.workers ran.history) outer run ran.history ran.recorder.log ran.outcome)) }
    ensures fresh { IfOk result (λ ran. AreFresh plan ran.recorder.trace) }
    ensures ready { IfOk result (λ ran. ran.recorder.plan ≡ Some plan) }
    ensures room { IfOk result (λ ran. greatest_trace plan ≤ length ran.recorder.trace + ran.recorder.room) }
    ensures told { B.told batch.new ≡ B.told batch.old }
    ensures grounds { B.grounds batch.new ≡ B.grounds batch.old }
    ensures count { B.count batch.new ≡ B.count batch.old }
    ensures size { B.size batch.new ≡ B.size batch.old }
    ensures given_back { IfErr result (λ none. none.recorder ≡ recorder) }
    ensures untouched { IfErr result (λ none. batch.new ≡ batch.old) }
{
    let Ok(tools) = Tools::<V, G, C>::make(alloc, coins, plan, outer, run) else {
        return Err(NoRun { recorder });
    };
    let Ok(failures) = Failures::make(alloc) else {
        return Err(NoRun { recorder });
    };
    match open::<G, V, C>(alloc, plan, outer, run, coins, recorder) {
        Ok(opened) => Ok(run_opened(rt, opened, tools, failures, coins, batch, gate)),
        Err(none) => Err(none),
    }
}

/// A run by a crew: the batch is loaded, and attempts are made, each distributed by running workers, until one is good or each
/// of the plan has failed. A block that is not put or got ends it, and so does a bucket whose records could not be read.
///
/// Whatever is drawn and whatever the schedule, the accesses and the failures are those of the definition, by the outcome, for
/// the turns that were stored. Each worker has had a turn in each attempt. All memory is taken before the first access. Where
/// there is none, nothing was done.
pub fn run_crew<V: Device + Send + Drop, C: Coins + Sync, B: Records, R: Threads + Wait + Sync>(
    rt: &R,
    alloc: Global,
    plan: Plan,
    outer: Keys,
    run: Keys,
    coins: &C,
    batch: &mut B,
    recorder: Recorder<V>,
) -> Result<Ran<V>, NoRun<V>>
    requires coins { C.plan coins.now ≡ plan }
    requires ready { recorder.plan ≡ Some plan }
    requires trace { recorder.trace ≡ [] }
    requires room { greatest_trace plan ≤ recorder.room }
    requires count { B.count batch.old ≡ plan.n }
    requires size { B.size batch.old ≡ envelope_length plan.form }
    ensures ends { IfOk result (λ ran. let ds = drawn (C.target_list coins.now) (C.order_list coins.now) in
        EndsRun plan ds (lists plan.workers ran.history)
        (seen_of V.faults (V.faults recorder.device) (B.faults batch.old) ran.recorder ran.history (B.faults batch.new))
        (opens_last plan run ran.recorder.last) ran.failures ran.outcome) }

    // There are turns of no more attempts than are planned. Each has turns of every worker, and of nobody else. Where no
    // exchange failed, each worker had one that found no bucket left, but in an attempt that a failed access cut.
    ensures few { IfOk result (λ ran. length (lists plan.workers ran.history) ≤ plan.attempts) }
    ensures took_part { IfOk result (λ ran. AllTookPart plan (lists plan.workers ran.history)) }
    ensures done { IfOk result (λ ran. AllAreDone plan (drawn (C.target_list coins.now) (C.order_list coins.now)) (lists plan.workers ran.history) ran.outcome) }

    // What the load has read are the records of the batch: of all its buckets, where an attempt was begun. Where the log of the
    // run is faithful, these are the records that the attempt which succeeded put out, each at its place, and however the run
    // ended they are what each block that was written has.
    ensures given { IfOk result (λ ran. let ds = drawn (C.target_list coins.now) (C.order_list coins.now) in
        HasGiven plan (B.told batch.old) (B.part (B.grounds batch.old)) (B.heard batch.old) (B.heard batch.new) (ran.history ≢ plan.workers ∷ [])
        (IsShuffledFrom plan ds (lists plan.workers ran.history) outer run ran.history ran.recorder.log ran.outcome)) }

    // No write repeats a nonce.
    ensures fresh { IfOk result (λ ran. AreFresh plan ran.recorder.trace) }

    // The recorder can go on with two scans of the output.
    ensures ready { IfOk result (λ ran. ran.recorder.plan ≡ Some plan) }
    ensures room { IfOk result (λ ran. greatest_trace plan ≤ length ran.recorder.trace + ran.recorder.room) }

    // The batch is the same one.
    ensures told { B.told batch.new ≡ B.told batch.old }
    ensures grounds { B.grounds batch.new ≡ B.grounds batch.old }
    ensures count { B.count batch.new ≡ B.count batch.old }
    ensures size { B.size batch.new ≡ B.size batch.old }

    // Where there is no memory, nothing was done.
    ensures given_back { IfErr result (λ none. none.recorder ≡ recorder) }
    ensures untouched { IfErr result (λ none. batch.new ≡ batch.old) }
{
    run_told::<Brand, V, C, OpenGate, B, R>(
        rt, alloc, plan, outer, run, coins, batch, recorder, &OpenGate,
    )
}
