//! How the rest of an attempt ends, in the words of what may follow it. Each law is what a function with an empty body
//! ensures.

ghost use Rattle.std.specs.Prelude.{◌≡◌, ℕ, ◌+◌, ◌*◌, ◌<◌, ◌≤◌, true, Ok, Err, Result, Some, length};
ghost use Rattle.esa_device.specs.Recording.{Recorded};
ghost use Rattle.esa_floor.specs.Ends.{IsOver};
ghost use Rattle.esa_floor.specs.Keeping.{AreChunksStored, HasInput, QueuesHold, SlotsHold};
ghost use Rattle.esa_floor.specs.Parts.{Parts};
ghost use Rattle.esa_floor.specs.Standing.{IsSpread, turns_made};
ghost use Rattle.esa_floor.specs.Written.{attempt_turns};
ghost use Rattle.esa_params.specs.Sizes.{Sizes};
ghost use Rattle.esa_report.specs.declared.item.Item.{Item};
ghost use Rattle.esa_spec.specs.Draws.{Draw, IsDrawn};
ghost use Rattle.esa_spec.specs.Turns.{order};
ghost use Rattle.esa_spec.specs.Verdicts.{is_finished, is_good, steps, verdict};
ghost use Rattle.esa_spec.specs.declared.event.Verdict.{Verdict};
ghost use Rattle.esa_vault.specs.declared.fault.VaultFault.{VaultFault};
ghost use Rattle.esa_press.specs.Contents.{AreQueued};
ghost use Rattle.esa_press.specs.Drained.{DrainEnd};
ghost use Rattle.esa_press.specs.Over.{HasFailed, IsCut, IsDistributed};
ghost use Rattle.esa_press.specs.Stepped.{AreMade};
ghost use Rattle.esa_press.specs.declared.halt.Halt.{Halt};

use esa_device::Device;

/// A floor whose chunks are all written has what a drain and a compression ask for.
pub fn distributed_floors_are_ready<V: Device>()
    ensures spread { (p : Sizes) (ds : ℕ → Draw) (f : Parts V) (a : ℕ) → IsDistributed V.faults p ds f a
        → IsSpread f.plan (ds a) (turns_made f) f.stash f.counts f.counted }
    ensures drawn { (p : Sizes) (ds : ℕ → Draw) (f : Parts V) (a : ℕ) → IsDistributed V.faults p ds f a → IsDrawn f.plan (ds a) }
    ensures planned { (p : Sizes) (ds : ℕ → Draw) (f : Parts V) (a : ℕ) → IsDistributed V.faults p ds f a → a < f.plan.attempts }
    ensures ready { (p : Sizes) (ds : ℕ → Draw) (f : Parts V) (a : ℕ) → IsDistributed V.faults p ds f a → f.recorder.plan ≡ Some f.plan }
    ensures room { (p : Sizes) (ds : ℕ → Draw) (f : Parts V) (a : ℕ) → IsDistributed V.faults p ds f a
        → f.plan.b + (f.plan.b * (f.plan.b + 1) + f.plan.b) ≤ f.recorder.room }
{}

/// The queues of such a floor and the slots of its chunks have the records of their places, where the floor has kept what it
/// was given.
pub fn distributed_floors_hold<V: Device>()
    ensures queues { (p : Sizes) (ds : ℕ → Draw) (f : Parts V) (a : ℕ) (record_of : ℕ → Item) → IsDistributed V.faults p ds f a → HasInput f record_of → QueuesHold ds f
        → AreQueued f.plan (ds a) (turns_made f) record_of f.stash }
    ensures chunks { (p : Sizes) (ds : ℕ → Draw) (f : Parts V) (a : ℕ) (record_of : ℕ → Item) → IsDistributed V.faults p ds f a → HasInput f record_of → SlotsHold ds f
        → AreChunksStored f.plan f.run a (ds a) record_of (turns_made f) f.recorder.log }
{}

/// The turns of the attempt are those that the history has of it, before its drain and after.
pub fn distributed_floors_have_their_turns<V: Device>()
    ensures before { (p : Sizes) (ds : ℕ → Draw) (f : Parts V) (a : ℕ) → IsDistributed V.faults p ds f a → attempt_turns f a ≡ turns_made f }
    ensures after { (p : Sizes) (ds : ℕ → Draw) (f new : Parts V) (a : ℕ) (result : Result (Unit {0}) Halt) → IsDistributed V.faults p ds f a
        → DrainEnd V.faults (ds a) (order f.plan.b (turns_made f)) a f new result → attempt_turns new a ≡ turns_made new }
{}

/// An attempt of which too much is left in the stash is over and has failed. Where the write of a tail failed, that cuts it.
pub fn drains_end_attempts<V: Device>()
    ensures left { (p : Sizes) (ds : ℕ → Draw) (f new : Parts V) (a : ℕ) (v : Verdict) → IsDistributed V.faults p ds f a
        → DrainEnd {T = Unit {0}} V.faults (ds a) (order f.plan.b (turns_made f)) a f new (Err (Halt.Verdict v)) → HasFailed V.faults p ds new a v }
    ensures cut { (p : Sizes) (ds : ℕ → Draw) (f new : Parts V) (a : ℕ) (fault : VaultFault) → IsDistributed V.faults p ds f a
        → DrainEnd {T = Unit {0}} V.faults (ds a) (order f.plan.b (turns_made f)) a f new (Err (Halt.Fault fault)) → IsCut V.faults p ds new a fault }
{}

/// An attempt is over with its compression, and is good where all steps were done. Where an access of it failed, or gave a
/// block that doesn't open, that cuts it. The floor is the one that the drain left, with another recorder.
pub fn compressions_end_attempts<V: Device>()
    ensures good { (p : Sizes) (ds : ℕ → Draw) (f drained : Parts V) (new : Recorded V) (a : ℕ) (done again : Unit {0}) → IsDistributed V.faults p ds f a
        → DrainEnd V.faults (ds a) (order f.plan.b (turns_made f)) a f drained (Ok done)
        → AreMade V.faults drained.plan drained.run (ds a) (order drained.plan.b (turns_made drained)) a (steps drained.plan) drained.recorder new (Ok again)
        → new.plan ≡ drained.recorder.plan → length new.trace + new.room ≡ length drained.recorder.trace + drained.recorder.room
        → IsOver V.faults p ds (record drained { recorder = new }) a
        × (is_finished drained.plan (ds a) (turns_made drained) ≡ true) × (is_good (verdict drained.plan (ds a) (turns_made drained)) ≡ true) }
    ensures bad { (p : Sizes) (ds : ℕ → Draw) (f drained : Parts V) (new : Recorded V) (a : ℕ) (done : Unit {0}) (v : Verdict) → IsDistributed V.faults p ds f a
        → DrainEnd V.faults (ds a) (order f.plan.b (turns_made f)) a f drained (Ok done)
        → AreMade {T = Unit {0}} V.faults drained.plan drained.run (ds a) (order drained.plan.b (turns_made drained)) a (steps drained.plan) drained.recorder new (Err (Halt.Verdict v))
        → new.plan ≡ drained.recorder.plan → length new.trace + new.room ≡ length drained.recorder.trace + drained.recorder.room
        → HasFailed V.faults p ds (record drained { recorder = new }) a v }
    ensures cut { (p : Sizes) (ds : ℕ → Draw) (f drained : Parts V) (new : Recorded V) (a : ℕ) (done : Unit {0}) (fault : VaultFault) → IsDistributed V.faults p ds f a
        → DrainEnd V.faults (ds a) (order f.plan.b (turns_made f)) a f drained (Ok done)
        → AreMade {T = Unit {0}} V.faults drained.plan drained.run (ds a) (order drained.plan.b (turns_made drained)) a (steps drained.plan) drained.recorder new (Err (Halt.Fault fault))
        → new.plan ≡ drained.recorder.plan → length new.trace + new.room ≡ length drained.recorder.trace + drained.recorder.room
        → IsCut V.faults p ds (record drained { recorder = new }) a fault }
{}
