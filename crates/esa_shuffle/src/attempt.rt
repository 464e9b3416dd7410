//! One attempt of a run.

ghost use Rattle.std.specs.Prelude.{◌≡◌, ℕ, ◌+◌, ◌<◌, ◌≤◌, All, None, Ok, length};
ghost use Rattle.esa_device.specs.Logs.{IsFaithful, NoneFailed};
ghost use Rattle.esa_crew.specs.Posts.{AreMembers};
ghost use Rattle.esa_floor.specs.Keeping.{HasInput};
ghost use Rattle.esa_floor.specs.Marks.{roots_of};
ghost use Rattle.esa_floor.specs.Parts.{begun_as};
ghost use Rattle.esa_floor.specs.Standing.{Stands};
ghost use Rattle.esa_floor.specs.Written.{AreItems, EachGaveItsBlock, EachTookItsBlock, EachUntil, GaveItsOwn};
ghost use Rattle.esa_params.specs.Slots.{item_length};
ghost use Rattle.esa_press.specs.Contents.{AreOrders, AreOutputsStored};
ghost use Rattle.esa_report.specs.declared.item.Item.{Item};
ghost use Rattle.esa_spec.specs.Completion.{completed, full};
ghost use Rattle.esa_spec.specs.Fronts.{Begins};
ghost use Rattle.esa_shuffle.specs.Attempts.{AddsAttempt, AttemptEnd, StopsShort};
ghost use Rattle.esa_vault.specs.Traffic.{FailedByFault};

use crate::rest::finish;
use esa_crew::{begin, replay};
use esa_device::Device;
use esa_floor::{Floor, Told, Worker};
use esa_press::Press;
use esa_spec::{Coins, Verdict};
use esa_vault::VaultFault;

/// Makes an attempt: it is begun, takes the turns of a list that was handed in, completed, and is drained and compressed.
pub(crate) fn make_attempt<V: Device, G: Told, C: Coins>(
    floor: &mut Floor<V, G>,
    workers: &mut [Worker<'_, C>],
    press: &mut Press,
    coins: &C,
    attempt: u32,
    turns: &[u32],
) -> Result<Verdict, VaultFault>
    requires stands { Stands V.faults G.plan G.draws (begun_as floor.old attempt) }
    requires attempt { attempt < floor.old.plan.attempts }
    requires some { 1 ≤ floor.old.plan.workers }
    requires room { length floor.old.history + 1 + length (completed floor.old.plan turns.now) < floor.old.room }
    requires members { AreMembers G.draws C.target_list floor.old workers.old }
    requires each { length workers.old ≡ floor.old.plan.workers }
    requires numbers { All (λ number. number < floor.old.plan.workers) turns.now }
    requires few { length turns.now ≤ 4194304 }
    requires plan { press.old.plan ≡ floor.old.plan }
    requires run { press.old.run ≡ floor.old.run }
    requires coins { C.plan coins.now ≡ floor.old.plan }
    requires orders { AreOrders floor.old.plan (G.draws attempt) (C.order_list coins.now attempt) }
    ensures ends { AttemptEnd V.faults G.plan G.draws attempt floor.new result }
    ensures history { AddsAttempt floor.old.plan (full floor.old.plan (G.draws attempt) turns.now) floor.old.history floor.new.history result }
    ensures behind { StopsShort floor.old.plan attempt (full floor.old.plan (G.draws attempt) turns.now) floor.new result }
    ensures log { Begins floor.old.recorder.log floor.new.recorder.log }
    ensures input { (record_of : ℕ → Item) → IsFaithful floor.old.plan floor.new.recorder.log → HasInput floor.old record_of → HasInput floor.new record_of }

    // Where the input has these records and the log is faithful, the output of a good attempt has those of its places.
    ensures outputs { (record_of : ℕ → Item) → AreItems (item_length floor.old.plan.form) record_of → IsFaithful floor.old.plan floor.new.recorder.log
        → HasInput floor.old record_of → result ≡ Ok Verdict.Good
        → AreOutputsStored floor.old.plan floor.old.run (G.draws attempt) (full floor.old.plan (G.draws attempt) turns.now) attempt record_of floor.old.plan.b floor.new.recorder.log }
    ensures took { (record_of : ℕ → Item) → AreItems (item_length floor.old.plan.form) record_of
        → EachTookItsBlock G.draws record_of floor.old → EachTookItsBlock G.draws record_of floor.new }
    ensures failed { NoneFailed floor.old.recorder.log → FailedByFault result floor.new.recorder.log }
    ensures reads { EachGaveItsBlock G.draws floor.old → EachUntil (GaveItsOwn G.draws floor.new) result floor.new.recorder.log }
    ensures origin { roots_of floor.new ≡ roots_of floor.old }
    ensures outcome { floor.new.outcome ≡ None }
    ensures members { AreMembers G.draws C.target_list floor.new workers.new }
    ensures each { length workers.new ≡ length workers.old }
    ensures plan { press.new.plan ≡ press.old.plan }
    ensures run { press.new.run ≡ press.old.run }
{
    floor.keeps_its_log();
    begin(floor, workers, attempt);
    replay(floor, workers, turns);
    floor.keeps_its_log();
    finish(floor, press, coins, attempt)
}
