//! The attempts of a run, one after another, and its end.

ghost use Rattle.std.specs.Prelude.{◌≡◌, ◌≢◌, ◌∷◌, ◌++◌, ◌+◌, ◌<◌, ◌≤◌, ℕ, [], Some, length};
ghost use Rattle.esa_crew.specs.Posts.{AreMembers};
ghost use Rattle.esa_device.specs.Logs.{IsFaithful, NoneFailed};
ghost use Rattle.esa_ending.specs.Seen.{turns_in};
ghost use Rattle.esa_floor.specs.Keeping.{HasInput};
ghost use Rattle.esa_floor.specs.Marks.{roots_of};
ghost use Rattle.esa_floor.specs.Parts.{begun_as};
ghost use Rattle.esa_floor.specs.Standing.{Stands};
ghost use Rattle.esa_floor.specs.Written.{AreItems, EachGaveItsBlock, EachTookItsBlock, GaveItsOwn};
ghost use Rattle.esa_model.specs.Forecast.{made};
ghost use Rattle.esa_model.specs.Turns.{AreWorkers};
ghost use Rattle.esa_params.specs.Form.{envelope_length};
ghost use Rattle.esa_params.specs.Sizes.{ArePlanned};
ghost use Rattle.esa_params.specs.Slots.{greatest_trace, item_length};
ghost use Rattle.esa_press.specs.Contents.{AreOutputsStored};
ghost use Rattle.esa_report.specs.declared.item.Item.{Item};
ghost use Rattle.esa_spec.specs.Draws.{drawn};
ghost use Rattle.esa_spec.specs.Fronts.{Begins};
ghost use Rattle.esa_spec.specs.Histories.{lists};
ghost use Rattle.esa_spec.specs.Verdicts as verdicts;
ghost use Rattle.esa_shuffle.specs.Attempts.{outcome_of};
ghost use Rattle.esa_shuffle.specs.Loading.{HasGiven, IsNewFloor};
ghost use Rattle.esa_shuffle.specs.Records.{FailedByOutcome, IsShuffledFrom, ReadsOf};
ghost use Rattle.esa_shuffle.specs.Runs.{EndWithCut, EndsRun, MayEnd, entries_before, lists_ended, opens_last, seen_of};

use crate::attempt::make_attempt;
use crate::failures::Failures;
use crate::loads::load;
use crate::tools::Tools;
use esa_device::{Device, Recorder};
use esa_floor::{Floor, Given, History, Outcome, Told, Worker};
use esa_model::Turns;
use esa_outside::Records;
use esa_press::Press;
use esa_spec::{Coins, Verdict};
use esa_vault::VaultFault;

/// What a run has come to.
#[derive(Drop)]
pub struct Ran<V: Device> {
    /// How it ended.
    pub outcome: Outcome,
    /// How the attempts failed that did.
    pub failures: Failures,
    /// The recorder, with all accesses of the run.
    pub recorder: Recorder<V>,
    /// The turns of the attempts, and the owner's entries.
    pub history: History,
}

/// The outcome of a run in which a block was not put or got.
pub fn outcome_by(fault: VaultFault) -> Outcome
    ensures { result ≡ outcome_of fault }
{
    match fault {
        VaultFault::Device(number) => Outcome::DeviceFault(number),
        VaultFault::Tampered(number) => Outcome::Tampered(number),
    }
}

/// Whether an attempt that ends so is good.
pub fn is_good(verdict: Verdict) -> bool
    ensures { result ≡ verdicts.is_good verdict }
{
    match verdict {
        Verdict::Good => true,
        _ => false,
    }
}

/// Makes attempts, up to the first that is good, each with the turns of its list. What failed is kept. Where a block is not
/// put or got, no further attempt is made.
fn make_attempts<V: Device, G: Told, C: Coins>(
    floor: &mut Floor<V, G>,
    workers: &mut [Worker<'_, C>],
    press: &mut Press,
    failures: &mut Failures,
    coins: &C,
    turns: &Turns,
) -> Outcome
    requires next { Stands V.faults G.plan G.draws (begun_as floor.old 0) }
    requires planned { ArePlanned G.plan }
    requires history { floor.old.history ≡ [] }
    requires room { entries_before G.plan turns.now G.plan.attempts < floor.old.room }
    requires failures { failures.old ≡ [] }
    requires members { AreMembers G.draws C.target_list floor.old workers.old }
    requires each { length workers.old ≡ G.plan.workers }
    requires numbers { AreWorkers G.plan.workers turns.now }
    requires plan { press.old.plan ≡ floor.old.plan }
    requires run { press.old.run ≡ floor.old.run }
    requires coins { C.plan coins.now ≡ G.plan }
    requires draws { (a : ℕ) → G.draws a ≡ drawn (C.target_list coins.now) (C.order_list coins.now) a }
    ensures ends { (count : ℕ) → MayEnd V.faults G.plan G.draws (made G.plan G.draws turns.now) count count floor.new failures.new result }
    ensures cut { EndWithCut G.plan (lists_ended G.plan floor.new) (made G.plan G.draws turns.now) floor.new.recorder.trace result }
    ensures log { Begins floor.old.recorder.log floor.new.recorder.log }

    // Where the input has these records and the log is faithful, the output of the attempt that succeeded has those of its
    // places.
    ensures outputs { (record_of : ℕ → Item) (a : ℕ) → AreItems (item_length G.plan.form) record_of → IsFaithful G.plan floor.new.recorder.log
        → HasInput floor.old record_of → result ≡ Outcome.Shuffled a
        → AreOutputsStored G.plan floor.old.run (G.draws a) (turns_in (made G.plan G.draws turns.now) a) a record_of G.plan.b floor.new.recorder.log }
    ensures input { (record_of : ℕ → Item) → IsFaithful G.plan floor.new.recorder.log → HasInput floor.old record_of → HasInput floor.new record_of }

    // However the attempts ended, each write took its block, and no access failed but the last one.
    ensures took { (record_of : ℕ → Item) → AreItems (item_length G.plan.form) record_of
        → EachTookItsBlock G.draws record_of floor.old → EachTookItsBlock G.draws record_of floor.new }
    ensures failed { NoneFailed floor.old.recorder.log → FailedByOutcome result floor.new.recorder.log }

    // So each read gave its block, for every device.
    ensures reads { EachGaveItsBlock G.draws floor.old → ReadsOf (GaveItsOwn G.draws floor.new) result floor.new.recorder.log }
    ensures origin { roots_of floor.new ≡ roots_of floor.old }
{
    for attempt in 0..floor.plan().attempts() {
        match make_attempt(floor, workers, press, coins, attempt, turns.list(attempt)) {
            Ok(verdict) => {
                if is_good(verdict) {
                    return Outcome::Shuffled { attempt };
                }
                failures.add(verdict);
            }
            Err(fault) => return outcome_by(fault),
        }
    }
    Outcome::Overflow
}

/// Loads a batch on a floor on which nothing was done, and makes the attempts.
fn load_and_run<V: Device, G: Told, C: Coins, R: Records>(
    floor: &mut Floor<V, G>,
    tools: &mut Tools<'_, C>,
    failures: &mut Failures,
    coins: &C,
    batch: &mut R,
    turns: &Turns,
) -> Outcome
    requires new { IsNewFloor V.faults G.plan G.draws floor.old }
    requires log { floor.old.recorder.log ≡ [] }
    requires room { entries_before G.plan turns.now G.plan.attempts < floor.old.room }
    requires failures { failures.old ≡ [] }
    requires members { AreMembers G.draws C.target_list floor.old tools.old.workers.items }
    requires each { length tools.old.workers.items ≡ G.plan.workers }
    requires numbers { AreWorkers G.plan.workers turns.now }
    requires press_plan { tools.old.press.plan ≡ G.plan }
    requires press_run { tools.old.press.run ≡ floor.old.run }
    requires loader_plan { tools.old.loader.plan ≡ G.plan }
    requires loader_run { tools.old.loader.run ≡ floor.old.run }
    requires coins { C.plan coins.now ≡ G.plan }
    requires draws { (a : ℕ) → G.draws a ≡ drawn (C.target_list coins.now) (C.order_list coins.now) a }
    requires count { R.count batch.old ≡ G.plan.n }
    requires size { R.size batch.old ≡ envelope_length G.plan.form }
    ensures ends { MayEnd V.faults G.plan G.draws (made G.plan G.draws turns.now) (R.faults batch.old) (R.faults batch.new) floor.new failures.new result }
    ensures cut { EndWithCut G.plan (lists_ended G.plan floor.new) (made G.plan G.draws turns.now) floor.new.recorder.trace result }
    ensures given { HasGiven G.plan (R.told batch.old) (R.part (R.grounds batch.old)) (R.heard batch.old) (R.heard batch.new) (floor.new.history ≢ [])
        (IsShuffledFrom G.plan G.draws (made G.plan G.draws turns.now) floor.old.outer floor.old.run (floor.new.history ++ G.plan.workers ∷ []) floor.new.recorder.log result) }
    ensures origin { roots_of floor.new ≡ roots_of floor.old }
    ensures told { R.told batch.new ≡ R.told batch.old }
    ensures grounds { R.grounds batch.new ≡ R.grounds batch.old }
    ensures count { R.count batch.new ≡ R.count batch.old }
    ensures size { R.size batch.new ≡ R.size batch.old }
{
    match load(floor, &mut tools.loader, batch) {
        Ok(()) => {
            let outcome = make_attempts(
                floor,
                &mut tools.workers,
                &mut tools.press,
                failures,
                coins,
                turns,
            );
            floor.keeps_its_log();
            outcome
        }
        Err(outcome) => outcome,
    }
}

/// Runs on a floor on which nothing was done: loads the batch, makes the attempts, and ends the run.
pub(crate) fn run_on<V: Device, G: Told, C: Coins, R: Records>(
    mut floor: Floor<V, G>,
    tools: &mut Tools<'_, C>,
    mut failures: Failures,
    coins: &C,
    batch: &mut R,
    turns: &Turns,
) -> Ran<V>
    requires new { IsNewFloor V.faults G.plan G.draws floor }
    requires log { floor.recorder.log ≡ [] }
    requires room { entries_before G.plan turns.now G.plan.attempts < floor.room }
    requires failures { failures ≡ [] }
    requires members { AreMembers G.draws C.target_list floor tools.old.workers.items }
    requires each { length tools.old.workers.items ≡ G.plan.workers }
    requires numbers { AreWorkers G.plan.workers turns.now }
    requires press_plan { tools.old.press.plan ≡ G.plan }
    requires press_run { tools.old.press.run ≡ floor.run }
    requires loader_plan { tools.old.loader.plan ≡ G.plan }
    requires loader_run { tools.old.loader.run ≡ floor.run }
    requires coins { C.plan coins.now ≡ G.plan }
    requires draws { (a : ℕ) → G.draws a ≡ drawn (C.target_list coins.now) (C.order_list coins.now) a }
    requires count { R.count batch.old ≡ G.plan.n }
    requires size { R.size batch.old ≡ envelope_length G.plan.form }
    ensures ends { EndsRun G.plan G.draws (made G.plan G.draws turns.now) (seen_of V.faults floor.faults (R.faults batch.old) result.recorder result.history (R.faults batch.new))
        (opens_last G.plan floor.run result.recorder.last) result.failures result.outcome }
    ensures cut { EndWithCut G.plan (lists G.plan.workers result.history) (made G.plan G.draws turns.now) result.recorder.trace result.outcome }
    ensures given { HasGiven G.plan (R.told batch.old) (R.part (R.grounds batch.old)) (R.heard batch.old) (R.heard batch.new) (result.history ≢ G.plan.workers ∷ [])
        (IsShuffledFrom G.plan G.draws (made G.plan G.draws turns.now) floor.outer floor.run result.history result.recorder.log result.outcome) }
    ensures ready { result.recorder.plan ≡ Some G.plan }
    ensures room { greatest_trace G.plan ≤ length result.recorder.trace + result.recorder.room }
    ensures told { R.told batch.new ≡ R.told batch.old }
    ensures grounds { R.grounds batch.new ≡ R.grounds batch.old }
    ensures count { R.count batch.new ≡ R.count batch.old }
    ensures size { R.size batch.new ≡ R.size batch.old }
{
    let outcome = load_and_run(&mut floor, tools, &mut failures, coins, batch, turns);
    floor.end(outcome);
    let Given {
        recorder,
        history,
        outcome: _,
    } = floor.give();
    Ran {
        outcome,
        failures,
        recorder,
        history,
    }
}
