//! What comes after the turns of an attempt: the drain and the compression.

ghost use Rattle.std.specs.Prelude.{◌≡◌, ◌≢◌, ℕ, ◌*◌, ◌<◌, None, Ok, Some, length};
ghost use Rattle.esa_device.specs.Logs.{IsFaithful, NoneFailed};
ghost use Rattle.esa_floor.specs.Keeping.{HasInput, QueuesHold, SlotsHold};
ghost use Rattle.esa_floor.specs.Standing.{Stands, turns_made};
ghost use Rattle.esa_floor.specs.Written.{AreItems, EachGaveItsBlock, EachTookItsBlock, EachUntil, FailedByStop, GaveItsOwn, ReadsGaveTheirBlocks};
ghost use Rattle.esa_params.specs.Slots.{item_length};
ghost use Rattle.esa_press.specs.Contents.{AreOrders, AreOutputsStored};
ghost use Rattle.esa_press.specs.Over.{IsDistributed};
ghost use Rattle.esa_report.specs.declared.item.Item.{Item};
ghost use Rattle.esa_spec.specs.Fronts.{Begins};
ghost use Rattle.esa_shuffle.specs.Attempts.{AttemptEnd, EndsBehind, EndsByStop, end_of};
ghost use Rattle.esa_vault.specs.Traffic.{FailedByFault};

use esa_device::Device;
use esa_floor::{Floor, Stop, Told};
use esa_press::{Halt, Press};
use esa_spec::{Coins, Verdict};
use esa_vault::VaultFault;

/// How an attempt ends whose rest was not done.
fn end_by(halt: Halt) -> Result<Verdict, VaultFault>
    ensures { result ≡ end_of halt }
{
    match halt {
        Halt::Verdict(verdict) => Ok(verdict),
        Halt::Fault(fault) => Err(fault),
    }
}

/// Drains and compresses an attempt whose chunks are all written.
fn press_on<V: Device, G: Told, C: Coins>(
    floor: &mut Floor<V, G>,
    press: &mut Press,
    coins: &C,
    attempt: u32,
) -> Result<Verdict, VaultFault>
    requires distributed { IsDistributed V.faults G.plan G.draws floor.old attempt }
    requires plan { press.old.plan ≡ floor.old.plan }
    requires run { press.old.run ≡ floor.old.run }
    requires coins { C.plan coins.now ≡ floor.old.plan }
    requires orders { AreOrders floor.old.plan (G.draws attempt) (C.order_list coins.now attempt) }
    ensures ends { AttemptEnd V.faults G.plan G.draws attempt floor.new result }
    ensures floor { floor.new ≡ record floor.old { recorder = floor.new.recorder; stash = floor.new.stash } }
    ensures log { Begins floor.old.recorder.log floor.new.recorder.log }
    ensures input { (record_of : ℕ → Item) → IsFaithful floor.old.plan floor.new.recorder.log → HasInput floor.old record_of → HasInput floor.new record_of }

    // Where the queues and the slots hold the records of the input, and the log is faithful, the output of a good attempt has
    // the records of its places.
    ensures outputs { (record_of : ℕ → Item) → AreItems (item_length floor.old.plan.form) record_of → QueuesHold G.draws floor.old → SlotsHold G.draws floor.old
        → IsFaithful floor.old.plan floor.new.recorder.log → HasInput floor.old record_of → result ≡ Ok Verdict.Good
        → AreOutputsStored floor.old.plan floor.old.run (G.draws attempt) (turns_made floor.old) attempt record_of floor.old.plan.b floor.new.recorder.log }
    ensures took { (record_of : ℕ → Item) → AreItems (item_length floor.old.plan.form) record_of → QueuesHold G.draws floor.old → SlotsHold G.draws floor.old
        → EachTookItsBlock G.draws record_of floor.old → EachTookItsBlock G.draws record_of floor.new }
    ensures failed { NoneFailed floor.old.recorder.log → FailedByFault result floor.new.recorder.log }
    ensures reads { EachGaveItsBlock G.draws floor.old → EachUntil (GaveItsOwn G.draws floor.new) result floor.new.recorder.log }
    ensures behind { EndsBehind attempt floor.new.recorder.trace result }
    ensures plan { press.new.plan ≡ press.old.plan }
    ensures run { press.new.run ≡ press.old.run }
{
    if let Err(halt) = press.drain(floor, attempt) {
        return end_by(halt);
    }
    match press.compress(floor, coins, attempt) {
        Ok(()) => Ok(Verdict::Good),
        Err(halt) => end_by(halt),
    }
}

/// Goes on with an attempt that takes no more turns: they have stopped, or all chunks are written. It is drained and
/// compressed, unless a turn of it failed.
pub fn finish<V: Device, G: Told, C: Coins>(
    floor: &mut Floor<V, G>,
    press: &mut Press,
    coins: &C,
    attempt: u32,
) -> Result<Verdict, VaultFault>
    requires stands { Stands V.faults G.plan G.draws floor.old }
    requires attempt { floor.old.attempt ≡ Some attempt }
    requires room { length floor.old.history < floor.old.room }
    requires all { floor.old.stop ≡ None → floor.old.counted.writes ≡ floor.old.plan.b * floor.old.plan.b }
    requires plan { press.old.plan ≡ floor.old.plan }
    requires run { press.old.run ≡ floor.old.run }
    requires coins { C.plan coins.now ≡ floor.old.plan }
    requires orders { AreOrders floor.old.plan (G.draws attempt) (C.order_list coins.now attempt) }
    ensures ends { AttemptEnd V.faults G.plan G.draws attempt floor.new result }
    ensures floor { floor.new ≡ record floor.old { recorder = floor.new.recorder; stash = floor.new.stash } }
    ensures log { Begins floor.old.recorder.log floor.new.recorder.log }
    ensures input { (record_of : ℕ → Item) → IsFaithful floor.old.plan floor.new.recorder.log → HasInput floor.old record_of → HasInput floor.new record_of }

    // Where the queues and the slots hold the records of the input, and the log is faithful, the output of a good attempt has
    // the records of its places.
    ensures outputs { (record_of : ℕ → Item) → AreItems (item_length floor.old.plan.form) record_of → QueuesHold G.draws floor.old → SlotsHold G.draws floor.old
        → IsFaithful floor.old.plan floor.new.recorder.log → HasInput floor.old record_of → result ≡ Ok Verdict.Good
        → AreOutputsStored floor.old.plan floor.old.run (G.draws attempt) (turns_made floor.old) attempt record_of floor.old.plan.b floor.new.recorder.log }
    ensures took { (record_of : ℕ → Item) → AreItems (item_length floor.old.plan.form) record_of → QueuesHold G.draws floor.old → SlotsHold G.draws floor.old
        → EachTookItsBlock G.draws record_of floor.old → EachTookItsBlock G.draws record_of floor.new }
    ensures failed { FailedByStop floor.old.stop floor.old.recorder.log → FailedByFault result floor.new.recorder.log }
    ensures reads { ReadsGaveTheirBlocks G.draws floor.old → EachUntil (GaveItsOwn G.draws floor.new) result floor.new.recorder.log }
    ensures stopped { EndsByStop floor.old.stop result }
    ensures still { floor.old.stop ≢ None → floor.new ≡ floor.old }
    ensures behind { floor.old.stop ≡ None → EndsBehind attempt floor.new.recorder.trace result }
    ensures plan { press.new.plan ≡ press.old.plan }
    ensures run { press.new.run ≡ press.old.run }
{
    match floor.stop() {
        None => press_on(floor, press, coins, attempt),
        Some(Stop::StashOverflow(bucket)) => Ok(Verdict::StashOverflow(bucket)),
        Some(Stop::DeviceFault(number)) => Err(VaultFault::Device(number)),
        Some(Stop::Tampered(number)) => Err(VaultFault::Tampered(number)),
    }
}
