//! Turns that are handed in, taken on one thread.

ghost use Rattle.std.specs.Prelude.{◌≡◌, ◌≢◌, ℕ, ◌+◌, ◌*◌, ◌<◌, ◌≤◌, ◌++◌, ◌∷◌, List, [], None, All, true, false, length, option_to_list};
ghost use Rattle.esa_spec.specs.Completion.{completed};
ghost use Rattle.esa_spec.specs.Fronts.{Begins};
ghost use Rattle.esa_spec.specs.Traces.{asked};
ghost use Rattle.esa_spec.specs.Turns.{next};
ghost use Rattle.esa_floor.specs.Keeping.{HoldsAfter, KeepsDone, QueuesHold, QueuesHoldAfter, SlotsHold, SlotsHoldAfter, StopsAfter};
ghost use Rattle.esa_floor.specs.Marks.{roots_of};
ghost use Rattle.esa_floor.specs.Standing.{Stands, attempt_begun, turns_made};
ghost use Rattle.esa_floor.specs.Working.{Working};
ghost use Rattle.esa_floor.specs.Written.{EachTookItsBlock, FailedByStop, ReadsGaveTheirBlocks};
ghost use Rattle.esa_report.specs.declared.item.Item.{Item};
ghost use Rattle.esa_crew.specs.Posts.{AllHold, ArePosts, IsPost, KeepsRecords, OthersHoldAfter};
ghost use Rattle.esa_crew.specs.Replays.{IsReplayed};

use esa_device::Device;
use esa_floor::{Floor, Told, Worker};
use esa_model::{most_turns, worker_at};
use esa_spec::Coins;

/// Takes a turn of a worker, and lets the worker prepare.
fn step<V: Device, G: Told, C: Coins>(floor: &mut Floor<V, G>, worker: &mut Worker<'_, C>)
    requires room { length floor.old.history < floor.old.room }
    requires stands { Stands V.faults G.plan G.draws floor.old }
    requires begun { floor.old.attempt ≢ None }
    requires runs { floor.old.stop ≡ None }
    requires post { IsPost G.draws C.target_list floor.old worker.old.number worker.old }
    ensures history { floor.new.history ≡ floor.old.history ++ worker.old.number ∷ [] }
    ensures stands { Stands V.faults G.plan G.draws floor.new }
    ensures origin { roots_of floor.new ≡ roots_of floor.old }
    ensures attempt { floor.new.attempt ≡ floor.old.attempt }
    ensures begun { attempt_begun floor.new ≡ attempt_begun floor.old }
    ensures turns { turns_made floor.new ≡ turns_made floor.old ++ worker.old.number ∷ [] }
    ensures access { floor.new.recorder.trace ≡ floor.old.recorder.trace
        ++ option_to_list (asked floor.old.plan (attempt_begun floor.old) (next floor.old.plan.b (turns_made floor.old) worker.old.number)) }
    ensures post { IsPost G.draws C.target_list floor.new worker.old.number worker.new }
    ensures others { (number : ℕ) (other : Working C) → number ≢ worker.old.number
        → IsPost G.draws C.target_list floor.old number other → IsPost G.draws C.target_list floor.new number other }
    ensures holds { KeepsRecords G.draws floor.old worker.old → QueuesHold G.draws floor.old → KeepsRecords G.draws floor.new worker.new }
    ensures others_hold { (other : Working C) → KeepsRecords G.draws floor.old other → KeepsRecords G.draws floor.new other }
    ensures queues { KeepsRecords G.draws floor.old worker.old → QueuesHold G.draws floor.old → QueuesHold G.draws floor.new }
    ensures slots { KeepsRecords G.draws floor.old worker.old → SlotsHold G.draws floor.old → SlotsHold G.draws floor.new }
    ensures done { KeepsRecords G.draws floor.old worker.old → KeepsDone V.faults G.draws floor.old → KeepsDone V.faults G.draws floor.new }
    ensures took { (record_of : ℕ → Item) → KeepsRecords G.draws floor.old worker.old → EachTookItsBlock G.draws record_of floor.old
        → EachTookItsBlock G.draws record_of floor.new }
    ensures log { Begins floor.old.recorder.log floor.new.recorder.log }
    ensures failed { FailedByStop floor.old.stop floor.old.recorder.log → FailedByStop floor.new.stop floor.new.recorder.log }
    ensures reads { ReadsGaveTheirBlocks G.draws floor.old → ReadsGaveTheirBlocks G.draws floor.new }
    ensures stops { floor.new.stop ≢ None → StopsAfter V.faults G.draws (turns_made floor.old) floor.new }
    ensures queues_before { floor.new.stop ≢ None → QueuesHold G.draws floor.old → QueuesHoldAfter G.draws (turns_made floor.old) floor.new }
    ensures slots_before { floor.new.stop ≢ None → SlotsHold G.draws floor.old → SlotsHoldAfter G.draws (turns_made floor.old) floor.new }
    ensures others_before { (other : Working C) → floor.new.stop ≢ None → KeepsRecords G.draws floor.old other → HoldsAfter G.draws (turns_made floor.old) floor.new other }
{
    let _ = floor.turn(worker);
    worker.prepare();
}

/// The same of the worker of this number.
fn step_of<V: Device, G: Told, C: Coins>(
    floor: &mut Floor<V, G>,
    workers: &mut [Worker<'_, C>],
    number: u32,
)
    requires room { length floor.old.history < floor.old.room }
    requires stands { Stands V.faults G.plan G.draws floor.old }
    requires begun { floor.old.attempt ≢ None }
    requires runs { floor.old.stop ≡ None }
    requires number { number < length workers.old }
    requires posts { ArePosts G.draws C.target_list floor.old workers.old }
    ensures history { floor.new.history ≡ floor.old.history ++ number ∷ [] }
    ensures stands { Stands V.faults G.plan G.draws floor.new }
    ensures origin { roots_of floor.new ≡ roots_of floor.old }
    ensures attempt { floor.new.attempt ≡ floor.old.attempt }
    ensures begun { attempt_begun floor.new ≡ attempt_begun floor.old }
    ensures turns { turns_made floor.new ≡ turns_made floor.old ++ number ∷ [] }
    ensures access { floor.new.recorder.trace ≡ floor.old.recorder.trace
        ++ option_to_list (asked floor.old.plan (attempt_begun floor.old) (next floor.old.plan.b (turns_made floor.old) number)) }
    ensures posts { ArePosts G.draws C.target_list floor.new workers.new }
    ensures each { length workers.new ≡ length workers.old }
    ensures hold { AllHold G.draws floor.old workers.old → QueuesHold G.draws floor.old → AllHold G.draws floor.new workers.new }
    ensures queues { AllHold G.draws floor.old workers.old → QueuesHold G.draws floor.old → QueuesHold G.draws floor.new }
    ensures slots { AllHold G.draws floor.old workers.old → SlotsHold G.draws floor.old → SlotsHold G.draws floor.new }
    ensures done { AllHold G.draws floor.old workers.old → KeepsDone V.faults G.draws floor.old → KeepsDone V.faults G.draws floor.new }
    ensures took { (record_of : ℕ → Item) → AllHold G.draws floor.old workers.old → EachTookItsBlock G.draws record_of floor.old
        → EachTookItsBlock G.draws record_of floor.new }
    ensures log { Begins floor.old.recorder.log floor.new.recorder.log }
    ensures failed { FailedByStop floor.old.stop floor.old.recorder.log → FailedByStop floor.new.stop floor.new.recorder.log }
    ensures reads { ReadsGaveTheirBlocks G.draws floor.old → ReadsGaveTheirBlocks G.draws floor.new }
    ensures stops { floor.new.stop ≢ None → StopsAfter V.faults G.draws (turns_made floor.old) floor.new }
    ensures queues_before { floor.new.stop ≢ None → QueuesHold G.draws floor.old → QueuesHoldAfter G.draws (turns_made floor.old) floor.new }
    ensures slots_before { floor.new.stop ≢ None → SlotsHold G.draws floor.old → SlotsHoldAfter G.draws (turns_made floor.old) floor.new }
    ensures others_before { floor.new.stop ≢ None → AllHold G.draws floor.old workers.old → OthersHoldAfter G.draws (turns_made floor.old) number floor.new workers.new }
{
    let worker = &mut workers[number as usize];
    step(floor, worker);
}

/// Whether the turns have stopped, or all chunks are written.
fn is_over<V: Device, G: Told>(floor: &Floor<V, G>) -> bool
    ensures open { result ≡ false → floor.now.stop ≡ None }
    ensures fewer { result ≡ false → floor.now.counted.writes ≢ floor.now.plan.b * floor.now.plan.b }
    ensures over { result ≡ true → floor.now.stop ≡ None → floor.now.counted.writes ≡ floor.now.plan.b * floor.now.plan.b }
{
    floor.stop().is_some() || floor.spread()
}

/// Takes the turns of a list, and behind them one turn of each worker after another, until the attempt is finished or
/// the device fails. No turn of the attempt was made before.
pub fn replay<V: Device, G: Told, C: Coins>(
    floor: &mut Floor<V, G>,
    workers: &mut [Worker<'_, C>],
    turns: &[u32],
)
    requires stands { Stands V.faults G.plan G.draws floor.old }
    requires begun { floor.old.attempt ≢ None }
    requires fresh { turns_made floor.old ≡ [] }
    requires each { length workers.old ≡ floor.old.plan.workers }
    requires posts { ArePosts G.draws C.target_list floor.old workers.old }
    requires numbers { All (λ number. number < floor.old.plan.workers) turns.now }
    requires few { length turns.now ≤ 4194304 }
    requires room { length floor.old.history + length (completed floor.old.plan turns.now) ≤ floor.old.room }
    ensures stands { Stands V.faults G.plan G.draws floor.new }
    ensures replayed { IsReplayed floor.old.plan (G.draws (attempt_begun floor.old)) (attempt_begun floor.old) turns.now floor.old floor.new }
    ensures origin { roots_of floor.new ≡ roots_of floor.old }
    ensures attempt { floor.new.attempt ≡ floor.old.attempt }
    ensures posts { ArePosts G.draws C.target_list floor.new workers.new }
    ensures each { length workers.new ≡ length workers.old }
    ensures hold { AllHold G.draws floor.old workers.old → QueuesHold G.draws floor.old → AllHold G.draws floor.new workers.new }
    ensures queues { AllHold G.draws floor.old workers.old → QueuesHold G.draws floor.old → QueuesHold G.draws floor.new }
    ensures slots { AllHold G.draws floor.old workers.old → QueuesHold G.draws floor.old → SlotsHold G.draws floor.old → SlotsHold G.draws floor.new }
    ensures done { AllHold G.draws floor.old workers.old → KeepsDone V.faults G.draws floor.old → KeepsDone V.faults G.draws floor.new }
    ensures took { (record_of : ℕ → Item) → AllHold G.draws floor.old workers.old → QueuesHold G.draws floor.old → EachTookItsBlock G.draws record_of floor.old
        → EachTookItsBlock G.draws record_of floor.new }
    ensures log { Begins floor.old.recorder.log floor.new.recorder.log }
    ensures failed { FailedByStop floor.old.stop floor.old.recorder.log → FailedByStop floor.new.stop floor.new.recorder.log }
    ensures reads { ReadsGaveTheirBlocks G.draws floor.old → ReadsGaveTheirBlocks G.draws floor.new }
    ensures stops { floor.new.stop ≢ None → (before : List ℕ) × StopsAfter V.faults G.draws before floor.new
        × (AllHold G.draws floor.old workers.old → QueuesHold G.draws floor.old → SlotsHold G.draws floor.old
        → QueuesHoldAfter G.draws before floor.new × SlotsHoldAfter G.draws before floor.new) }
    ensures others_hold { floor.new.stop ≢ None → (before : List ℕ) (failed : ℕ) → turns_made floor.new ≡ before ++ failed ∷ []
        → AllHold G.draws floor.old workers.old → QueuesHold G.draws floor.old → OthersHoldAfter G.draws before failed floor.new workers.new }
{
    let plan = floor.plan();
    for made in 0..most_turns(&plan, turns) {
        if is_over(floor) {
            return;
        }
        let number = worker_at(&plan, turns, made);
        step_of(floor, workers, number);
    }
}
