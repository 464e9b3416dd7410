//! The compression: what was distributed is imported, and put out.

ghost use Rattle.std.specs.Prelude.{◌≡◌, ℕ, suc, ◌+◌, ◌-◌, ◌*◌, ◌<◌, ◌≤◌, ◌++◌, List, [], ◌∷◌, Some, OnOk, length, map};
ghost use Rattle.std.specs.List.{range_with_len};
ghost use Rattle.esa_compress.specs.Held.{held_in};
ghost use Rattle.esa_device.specs.Logs.{Carried, IsFaithful, NoneFailed};
ghost use Rattle.esa_floor.specs.Keeping.{HasInput};
ghost use Rattle.esa_floor.specs.Standing.{turns_made};
ghost use Rattle.esa_floor.specs.Written.{EachTookItsBlock, attempt_turns};
ghost use Rattle.esa_params.specs.Sizes.{first};
ghost use Rattle.esa_spec.specs.Turns.{order};
ghost use Rattle.esa_spec.specs.Verdicts.{Import, imported, reached, steps, steps_of};
ghost use Rattle.esa_report.specs.declared.item.Item.{Item};
ghost use Rattle.esa_press.specs.Contents.{AreOrders, ArePut, EachOpens, FailedByHalt, GoesOnGiving, GoesOnPressing, HoldsDistribution, KeepsWaiting, PutsWaiting};
ghost use Rattle.esa_press.specs.Fetched.{AreStored, GoesOnReading};
ghost use Rattle.esa_press.specs.Records.{imported_items};
ghost use Rattle.esa_press.specs.Stepped.{AreCounted, AreMade, IsAtImport};

use crate::halt::Halt;
use crate::press::Press;
use esa_device::Device;
use esa_floor::{Floor, Told};
use esa_spec::Coins;

impl Press {
    /// Imports a target of a floor, where so many places wait as were reached and not put out.
    pub(crate) fn import_target<V: Device, G: Told, C: Coins>(
        &mut self,
        floor: &mut Floor<V, G>,
        coins: &C,
        attempt: u32,
        output: u32,
        target: u32,
    ) -> Result<(), Halt>
        requires at { IsAtImport (C.plan coins.now) (G.draws attempt) attempt output target floor.old self.old }
        requires target { target < floor.old.plan.b }
        requires room { floor.old.plan.b + 1 ≤ floor.old.recorder.room }
        ensures made { AreMade V.faults floor.old.plan floor.old.run (G.draws attempt) (order floor.old.plan.b (turns_made floor.old)) attempt (Import output target ∷ []) floor.old.recorder floor.new.recorder result }
        ensures waits { OnOk result (length self.new.queue ≡ reached floor.old.plan (G.draws attempt) (target + 1) - first floor.old.plan output) }
        ensures log { GoesOnReading floor.old.recorder.log floor.new.recorder.log }
        ensures failed { NoneFailed floor.old.recorder.log → FailedByHalt result floor.new.recorder.log }
        ensures reads { GoesOnGiving G.draws attempt floor.old floor.new result }
        ensures gives { (chunks : ℕ → List Item) (left : List Item) → IsFaithful floor.old.plan floor.new.recorder.log
            → AreStored floor.old.plan floor.old.run attempt target floor.old.recorder.log chunks left
            → OnOk result (self.new.queue ≡ self.old.queue ++ held_in (imported_items floor.old.plan chunks left) (C.order_list coins.now attempt target)) }
        ensures keeps { (record_of : ℕ → Item) → KeepsWaiting floor.old.plan floor.old.run (G.draws attempt) (turns_made floor.old) attempt (C.order_list coins.now attempt) record_of
            output target (target + 1) floor.old.recorder.log floor.new.recorder.log self.old.queue self.new.queue result }
        ensures floor { floor.new ≡ record floor.old { recorder = floor.new.recorder } }
        ensures ready { floor.new.recorder.plan ≡ floor.old.recorder.plan }
        ensures total { length floor.new.recorder.trace + floor.new.recorder.room ≡ length floor.old.recorder.trace + floor.old.recorder.room }
        ensures used { floor.old.recorder.room ≤ floor.new.recorder.room + (floor.old.plan.b + 1) }
        ensures others { self.new ≡ record self.old { queue = self.new.queue; counts = self.new.counts } }
    {
        self.count(floor, target);
        self.import(floor.recorder(), coins, attempt, target)
    }

    /// Imports the targets from one on up to another, for an output bucket.
    pub(crate) fn import_ahead<V: Device, G: Told, C: Coins>(
        &mut self,
        floor: &mut Floor<V, G>,
        coins: &C,
        attempt: u32,
        output: u32,
        from: u32,
        end: u32,
    ) -> Result<(), Halt>
        requires at { IsAtImport (C.plan coins.now) (G.draws attempt) attempt output from floor.old self.old }
        requires from { from ≤ end }
        requires end { end ≤ floor.old.plan.b }
        requires room { (end - from) * (floor.old.plan.b + 1) ≤ floor.old.recorder.room }
        ensures made { AreMade V.faults floor.old.plan floor.old.run (G.draws attempt) (order floor.old.plan.b (turns_made floor.old)) attempt (map (Import output) (range_with_len from (end - from))) floor.old.recorder floor.new.recorder result }
        ensures waits { OnOk result (length self.new.queue ≡ reached floor.old.plan (G.draws attempt) end - first floor.old.plan output) }
        ensures log { GoesOnReading floor.old.recorder.log floor.new.recorder.log }
        ensures failed { NoneFailed floor.old.recorder.log → FailedByHalt result floor.new.recorder.log }
        ensures reads { GoesOnGiving G.draws attempt floor.old floor.new result }
        ensures keeps { (record_of : ℕ → Item) → KeepsWaiting floor.old.plan floor.old.run (G.draws attempt) (turns_made floor.old) attempt (C.order_list coins.now attempt) record_of
            output from end floor.old.recorder.log floor.new.recorder.log self.old.queue self.new.queue result }
        ensures floor { floor.new ≡ record floor.old { recorder = floor.new.recorder } }
        ensures ready { floor.new.recorder.plan ≡ floor.old.recorder.plan }
        ensures total { length floor.new.recorder.trace + floor.new.recorder.room ≡ length floor.old.recorder.trace + floor.old.recorder.room }
        ensures used { floor.old.recorder.room ≤ floor.new.recorder.room + (end - from) * (floor.old.plan.b + 1) }
        ensures others { self.new ≡ record self.old { queue = self.new.queue; counts = self.new.counts } }
    {
        for target in from..end {
            if let Err(halt) = self.import_target(floor, coins, attempt, output, target) {
                return Err(halt);
            }
        }
        Ok(())
    }

    /// Imports what belongs in the window of an output bucket, and puts that bucket.
    pub(crate) fn put_out<V: Device, G: Told, C: Coins>(
        &mut self,
        floor: &mut Floor<V, G>,
        coins: &C,
        attempt: u32,
        output: u32,
        from: u32,
        end: u32,
    ) -> Result<(), Halt>
        requires at { IsAtImport (C.plan coins.now) (G.draws attempt) attempt output from floor.old self.old }
        requires output { output < floor.old.plan.b }
        requires from { from ≡ imported floor.old.plan output }
        requires end { end ≡ imported floor.old.plan (suc output) }
        requires rises { from ≤ end }
        requires within { end ≤ floor.old.plan.b }
        requires room { (end - from) * (floor.old.plan.b + 1) + 1 ≤ floor.old.recorder.room }
        ensures made { AreMade V.faults floor.old.plan floor.old.run (G.draws attempt) (order floor.old.plan.b (turns_made floor.old)) attempt (steps_of floor.old.plan output) floor.old.recorder floor.new.recorder result }
        ensures put { OnOk result (first floor.old.plan (output + 1) ≤ reached floor.old.plan (G.draws attempt) end) }
        ensures waits { OnOk result (length self.new.queue ≡ reached floor.old.plan (G.draws attempt) end - first floor.old.plan (output + 1)) }
        ensures log { GoesOnPressing floor.old.recorder.log floor.new.recorder.log }
        ensures failed { NoneFailed floor.old.recorder.log → FailedByHalt result floor.new.recorder.log }
        ensures reads { GoesOnGiving G.draws attempt floor.old floor.new result }
        ensures puts { (record_of : ℕ → Item) (before : List Carried) → PutsWaiting floor.old.plan floor.old.run (G.draws attempt) (turns_made floor.old) attempt (C.order_list coins.now attempt) record_of
            output from end before floor.old.recorder.log floor.new.recorder.log self.old.queue self.new.queue result }
        ensures floor { floor.new ≡ record floor.old { recorder = floor.new.recorder } }
        ensures ready { floor.new.recorder.plan ≡ floor.old.recorder.plan }
        ensures total { length floor.new.recorder.trace + floor.new.recorder.room ≡ length floor.old.recorder.trace + floor.old.recorder.room }
        ensures used { floor.old.recorder.room ≤ floor.new.recorder.room + ((end - from) * (floor.old.plan.b + 1) + 1) }
        ensures others { self.new ≡ record self.old { queue = self.new.queue; counts = self.new.counts } }
    {
        if let Err(halt) = self.import_ahead(floor, coins, attempt, output, from, end) {
            return Err(halt);
        }
        self.put(floor.recorder(), attempt, output)
    }

    /// Compresses what was distributed: the steps of the definition, up to the first that can't be done, with an empty window
    /// at first.
    pub fn compress<V: Device, G: Told, C: Coins>(
        &mut self,
        floor: &mut Floor<V, G>,
        coins: &C,
        attempt: u32,
    ) -> Result<(), Halt>
        requires plan { self.old.plan ≡ floor.old.plan }
        requires run { self.old.run ≡ floor.old.run }
        requires coins { C.plan coins.now ≡ floor.old.plan }
        requires attempt { attempt < floor.old.plan.attempts }
        requires ready { floor.old.recorder.plan ≡ Some floor.old.plan }
        requires room { floor.old.plan.b * (floor.old.plan.b + 1) + floor.old.plan.b ≤ floor.old.recorder.room }
        requires counted { AreCounted floor.old.plan (G.draws attempt) (turns_made floor.old) floor.old.counts self.old.tails }
        ensures made { AreMade V.faults floor.old.plan floor.old.run (G.draws attempt) (order floor.old.plan.b (turns_made floor.old)) attempt (steps floor.old.plan) floor.old.recorder floor.new.recorder result }
        ensures floor { floor.new ≡ record floor.old { recorder = floor.new.recorder } }
        ensures ready { floor.new.recorder.plan ≡ floor.old.recorder.plan }
        ensures total { length floor.new.recorder.trace + floor.new.recorder.room ≡ length floor.old.recorder.trace + floor.old.recorder.room }
        ensures others { self.new ≡ record self.old { queue = self.new.queue; counts = self.new.counts } }

        // Blocks are read, and none is written but those of the output. So the input stays.
        ensures log { GoesOnPressing floor.old.recorder.log floor.new.recorder.log }
        ensures input { (record_of : ℕ → Item) → IsFaithful floor.old.plan floor.new.recorder.log → HasInput floor.old record_of → HasInput floor.new record_of }

        // Where the coins draw the orders of the attempt, what was distributed is stored, and the log is faithful, each block
        // opens, and the output buckets that were written have the records of their places, in order: all of them, where all
        // steps were done.
        ensures outputs { (record_of : ℕ → Item) → AreOrders floor.old.plan (G.draws attempt) (C.order_list coins.now attempt)
            → HoldsDistribution floor.old.plan floor.old.run (G.draws attempt) (turns_made floor.old) attempt record_of floor.old.recorder.log
            → IsFaithful floor.old.plan floor.new.recorder.log
            → EachOpens result
            (ArePut floor.old.plan floor.old.run (G.draws attempt) (turns_made floor.old) attempt record_of floor.old.plan.b floor.old.recorder.log floor.new.recorder.log)
            ((n : ℕ) × (n < floor.old.plan.b)
            × ArePut floor.old.plan floor.old.run (G.draws attempt) (turns_made floor.old) attempt record_of n floor.old.recorder.log floor.new.recorder.log) }
        ensures took { (record_of : ℕ → Item) → attempt_turns floor.old attempt ≡ turns_made floor.old
            → AreOrders floor.old.plan (G.draws attempt) (C.order_list coins.now attempt)
            → HoldsDistribution floor.old.plan floor.old.run (G.draws attempt) (turns_made floor.old) attempt record_of floor.old.recorder.log
            → EachTookItsBlock G.draws record_of floor.old → EachTookItsBlock G.draws record_of floor.new }
        ensures failed { NoneFailed floor.old.recorder.log → FailedByHalt result floor.new.recorder.log }
        ensures reads { GoesOnGiving G.draws attempt floor.old floor.new result }
    {
        let plan = self.plan();
        self.clear();
        let mut from = 0;
        for output in 0..plan.b() {
            let end = (output + plan.w()).min(plan.b());
            if let Err(halt) = self.put_out(floor, coins, attempt, output, from, end) {
                return Err(halt);
            }
            from = end;
        }
        Ok(())
    }
}
