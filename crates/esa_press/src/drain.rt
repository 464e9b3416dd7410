//! The drain: what is left in the stash is written as tails.

ghost use Rattle.std.specs.Prelude.{◌≡◌, ℕ, ◌*◌, ◌<◌, ◌≤◌, Some, OnOk, length, slice_index};
ghost use Rattle.esa_device.specs.Logs.{IsFaithful, NoneFailed};
ghost use Rattle.esa_floor.specs.Keeping.{AreChunksStored, HasInput};
ghost use Rattle.esa_floor.specs.Standing.{IsSpread, turns_made};
ghost use Rattle.esa_floor.specs.Written.{EachTookItsBlock, attempt_turns};
ghost use Rattle.esa_spec.specs.Draws.{IsDrawn};
ghost use Rattle.esa_spec.specs.Turns.{order};
ghost use Rattle.esa_stash.specs.Stash.{queue_at};
ghost use Rattle.esa_report.specs.declared.item.Item.{Item};
ghost use Rattle.esa_press.specs.Contents.{AreQueued, AreTailsStored, FailedByHalt, GoesOnGiving};
ghost use Rattle.esa_press.specs.Drained.{DrainEnd};
ghost use Rattle.esa_press.specs.Stepped.{AreCounted};

use crate::halt::Halt;
use crate::press::Press;
use esa_device::Device;
use esa_floor::{Floor, Told};

impl Press {
    /// Writes the tail of each target, up to the first target for which too much is left. All chunks of the attempt were
    /// written. How many items each tail has is noted.
    pub fn drain<V: Device, G: Told>(
        &mut self,
        floor: &mut Floor<V, G>,
        attempt: u32,
    ) -> Result<(), Halt>
        requires plan { self.old.plan ≡ floor.old.plan }
        requires run { self.old.run ≡ floor.old.run }
        requires ready { floor.old.recorder.plan ≡ Some floor.old.plan }
        requires room { floor.old.plan.b ≤ floor.old.recorder.room }
        requires spread { IsSpread floor.old.plan (G.draws attempt) (turns_made floor.old) floor.old.stash floor.old.counts floor.old.counted }
        requires all { floor.old.counted.writes ≡ floor.old.plan.b * floor.old.plan.b }
        ensures ends { DrainEnd V.faults (G.draws attempt) (order floor.old.plan.b (turns_made floor.old)) attempt floor.old floor.new result }
        ensures noted { OnOk result ((i : ℕ) → i < floor.old.plan.b → slice_index self.new.tails i ≡ length (queue_at floor.old.stash i)) }

        // A compression after it has its counts.
        ensures counted { IsDrawn floor.old.plan (G.draws attempt) → OnOk result (AreCounted floor.old.plan (G.draws attempt) (turns_made floor.old) floor.old.counts self.new.tails) }
        ensures others { self.new ≡ record self.old { tails = self.new.tails } }

        // Where the queues have the records of the places that wait, the tails have them then. The chunks stay as they were,
        // and so does the input.
        ensures tails { (record_of : ℕ → Item) → AreQueued floor.old.plan (G.draws attempt) (turns_made floor.old) record_of floor.old.stash
            → OnOk result (AreTailsStored floor.old.plan floor.old.run (G.draws attempt) (turns_made floor.old) attempt record_of floor.new.recorder.log) }
        ensures chunks { (record_of : ℕ → Item) → AreChunksStored floor.old.plan floor.old.run attempt (G.draws attempt) record_of (turns_made floor.old) floor.old.recorder.log
            → AreChunksStored floor.old.plan floor.old.run attempt (G.draws attempt) record_of (turns_made floor.old) floor.new.recorder.log }
        ensures input { (record_of : ℕ → Item) → IsFaithful floor.old.plan floor.new.recorder.log → HasInput floor.old record_of → HasInput floor.new record_of }
        ensures took { (record_of : ℕ → Item) → attempt_turns floor.old attempt ≡ turns_made floor.old
            → AreQueued floor.old.plan (G.draws attempt) (turns_made floor.old) record_of floor.old.stash
            → EachTookItsBlock G.draws record_of floor.old → EachTookItsBlock G.draws record_of floor.new }
        ensures failed { NoneFailed floor.old.recorder.log → FailedByHalt result floor.new.recorder.log }
        ensures reads { GoesOnGiving G.draws attempt floor.old floor.new result }
    {
        for target in 0..self.plan().b() {
            if let Err(halt) = self.drain_one(floor, attempt, target) {
                return Err(halt);
            }
        }
        Ok(())
    }
}
