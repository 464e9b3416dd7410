//! What may follow an attempt: another one, or the end of the run.
//!
//! The functions do nothing when they run. They are there so that each law is proved where a contract names it.

ghost use Rattle.std.specs.Prelude.{◌≡◌, ◌≢◌, ℕ, ◌+◌, ◌*◌, ◌<◌, ◌++◌, true, false, None, Some, List, length, map};
ghost use Rattle.esa_device.specs.Logs.{Took};
ghost use Rattle.esa_outside.specs.Cause.{Rose};
ghost use Rattle.esa_params.specs.Sizes.{Sizes};
ghost use Rattle.esa_params.specs.Slots.{at, number_of, slot_number};
ghost use Rattle.esa_params.specs.declared.slot.Access.{Access};
ghost use Rattle.esa_params.specs.declared.slot.Op.{Op};
ghost use Rattle.esa_report.specs.declared.item.Item.{Item};
ghost use Rattle.esa_spec.specs.Draws.{Draw};
ghost use Rattle.esa_spec.specs.Lines.{tail};
ghost use Rattle.esa_spec.specs.Traces.{attempt_trace, chunk_slot, drain, is_failed, spread};
ghost use Rattle.esa_spec.specs.Turns.{order};
ghost use Rattle.esa_spec.specs.Verdicts.{failing, is_finished, is_good, left, verdict};
ghost use Rattle.esa_stash.specs.Stash.{queue_at};
ghost use Rattle.esa_vault.specs.Seals.{opens};
ghost use Rattle.esa_floor.specs.Keeping.{HasInput, QueuesHold, SlotsHold, chunk_block};
ghost use Rattle.esa_floor.specs.Parts.{Parts, begun_as, ended_as};
ghost use Rattle.esa_floor.specs.Standing.{Stands, attempt_begun, turns_made};
ghost use Rattle.esa_spec.specs.Fronts.{Begins, EndsWith, items_in};
ghost use Rattle.esa_floor.specs.declared.turn.Outcome.{Outcome};
ghost use Rattle.esa_floor.specs.declared.turn.Stop.{Stop};
ghost use Rattle.esa_floor.specs.Ends.{HasMade, IsLoading, IsOver};

use esa_device::Device;

/// What the turns of an attempt have made: while none of them has failed, the accesses of its distribution so far. Where an
/// exchange overflowed, the attempt is over and has failed.
pub fn turns_that_were_made<V: Device>()
    ensures running { (p : Sizes) (ds : ℕ → Draw) (f : Parts V) → Stands V.faults p ds f → f.attempt ≢ None → length f.history < f.room → f.stop ≡ None
        → HasMade p ds f (attempt_begun f) (spread f.plan (ds (attempt_begun f)) (attempt_begun f) (turns_made f)) }
    ensures overflow { (p : Sizes) (ds : ℕ → Draw) (f : Parts V) (j : ℕ) → Stands V.faults p ds f → f.attempt ≢ None → length f.history < f.room
        → f.stop ≡ Some (Stop.StashOverflow j)
        → IsOver V.faults p ds f (attempt_begun f) × (is_failed f.plan (ds (attempt_begun f)) (turns_made f) ≡ true) }
{}

/// An attempt whose chunks are all written is finished, no exchange of it failed, and its accesses go on with its drain.
pub fn drains_follow<V: Device>()
    ensures finished { (p : Sizes) (ds : ℕ → Draw) (f : Parts V) → Stands V.faults p ds f → f.attempt ≢ None → f.stop ≡ None
        → f.counted.writes ≡ f.plan.b * f.plan.b → is_finished f.plan (ds (attempt_begun f)) (turns_made f) ≡ true }
    ensures good { (p : Sizes) (ds : ℕ → Draw) (f : Parts V) → Stands V.faults p ds f → f.attempt ≢ None → f.stop ≡ None
        → failing f.plan (ds (attempt_begun f)) (order f.plan.b (turns_made f)) ≡ None }
    ensures accesses { (p : Sizes) (d : Draw) (a : ℕ) (h : List ℕ) → failing p d (order p.b h) ≡ None → is_finished p d h ≡ true
        → attempt_trace p d a h ≡ spread p d a h ++ drain p d a (left p d (order p.b h)) }
{}

/// Where all chunks are written, each slot of Mid has the block of its chunk, and each queue what is left for its target: of
/// the records of the places, where the slots and the queues held the records of the input all along.
pub fn written_chunks_are_stored<V: Device>()
    ensures slots { (p : Sizes) (ds : ℕ → Draw) (f : Parts V) (record_of : ℕ → Item) → Stands V.faults p ds f → f.attempt ≢ None → f.stop ≡ None
        → f.counted.writes ≡ f.plan.b * f.plan.b → SlotsHold ds f → HasInput f record_of → (j i : ℕ) → j < f.plan.b → i < f.plan.b
        → Took f.plan (number_of f.plan (chunk_slot f.plan j i))
        (chunk_block f.plan f.run (attempt_begun f) (ds (attempt_begun f)) record_of (order f.plan.b (turns_made f)) j i) f.recorder.log }
    ensures queues { (p : Sizes) (ds : ℕ → Draw) (f : Parts V) (record_of : ℕ → Item) → Stands V.faults p ds f → f.attempt ≢ None → f.stop ≡ None
        → f.counted.writes ≡ f.plan.b * f.plan.b → QueuesHold ds f → HasInput f record_of → (i : ℕ) → i < f.plan.b
        → queue_at f.stash i ≡ map record_of (tail f.plan (ds (attempt_begun f)) (order f.plan.b (turns_made f)) i) }
{}

/// What an attempt has made goes on with the accesses that are made without a turn. They leave all but the recorder and what
/// waits as it was.
pub fn accesses_that_were_made<V: Device>()
    ensures { (p : Sizes) (ds : ℕ → Draw) (f new : Parts V) (a : ℕ) (made more : List Access) → HasMade p ds f a made
        → new ≡ record f { recorder = new.recorder; stash = new.stash } → new.recorder.plan ≡ f.recorder.plan
        → length new.recorder.trace + new.recorder.room ≡ length f.recorder.trace + f.recorder.room
        → new.recorder.trace ≡ f.recorder.trace ++ more → HasMade p ds new a (made ++ more) }
{}

/// A floor whose attempt is over and has failed may begin the next one.
pub fn failed_attempts_lead_on<V: Device>()
    ensures { (p : Sizes) (ds : ℕ → Draw) (f : Parts V) (a : ℕ) → IsOver V.faults p ds f a → f.outcome ≡ None
        → is_failed f.plan (ds a) (turns_made f) ≡ true → a + 1 < p.attempts → Stands V.faults p ds (begun_as f (a + 1)) }
{}

/// A run may end with an attempt that succeeded, and where each attempt of the plan failed.
pub fn runs_end_with_their_attempts<V: Device>()
    ensures shuffled { (p : Sizes) (ds : ℕ → Draw) (f : Parts V) (a : ℕ) → IsOver V.faults p ds f a
        → is_finished f.plan (ds a) (turns_made f) ≡ true → is_good (verdict f.plan (ds a) (turns_made f)) ≡ true
        → Stands V.faults p ds (ended_as f (Outcome.Shuffled a)) }
    ensures overflow { (p : Sizes) (ds : ℕ → Draw) (f : Parts V) (a : ℕ) → IsOver V.faults p ds f a
        → is_failed f.plan (ds a) (turns_made f) ≡ true → a + 1 ≡ p.attempts → Stands V.faults p ds (ended_as f Outcome.Overflow) }
{}

/// A run may end where a turn failed at the device.
pub fn runs_end_with_a_turn<V: Device>()
    ensures fault { (p : Sizes) (ds : ℕ → Draw) (f : Parts V) (number : ℕ) → Stands V.faults p ds f → f.attempt ≢ None → length f.history < f.room
        → f.stop ≡ Some (Stop.DeviceFault number) → Stands V.faults p ds (ended_as f (Outcome.DeviceFault number)) }
    ensures tampered { (p : Sizes) (ds : ℕ → Draw) (f : Parts V) (number : ℕ) → Stands V.faults p ds f → f.attempt ≢ None → length f.history < f.room
        → f.stop ≡ Some (Stop.Tampered number) → Stands V.faults p ds (ended_as f (Outcome.Tampered number)) }
{}

/// A run may end where an access of an attempt failed, or gave a block that doesn't open for as many items as the attempt
/// has there. The accesses up to that one begin those of the attempt.
pub fn runs_end_with_an_access<V: Device>()
    ensures fault { (p : Sizes) (ds : ℕ → Draw) (f : Parts V) (a : ℕ) (made : List Access) (access : Access) → HasMade p ds f a made
        → Begins made (attempt_trace f.plan (ds a) a (turns_made f)) → EndsWith made access → Rose f.faults (V.faults f.recorder.device)
        → Stands V.faults p ds (ended_as f (Outcome.DeviceFault (slot_number f.plan access))) }
    ensures tampered { (p : Sizes) (ds : ℕ → Draw) (f : Parts V) (a : ℕ) (made : List Access) (access : Access) → HasMade p ds f a made
        → Begins made (attempt_trace f.plan (ds a) a (turns_made f)) → EndsWith made access → V.faults f.recorder.device ≡ f.faults
        → access.op ≡ Op.Read → access.attempt ≡ a
        → opens f.plan f.run (at access.region access.index) a (items_in f.plan (ds a) (order f.plan.b (turns_made f)) access) f.recorder.last ≡ false
        → Stands V.faults p ds (ended_as f (Outcome.Tampered (slot_number f.plan access))) }
{}

/// A run may end in the load, where the source of the records failed or a write did.
pub fn runs_end_with_the_load<V: Device>()
    ensures batch { (p : Sizes) (ds : ℕ → Draw) (f : Parts V) → IsLoading p ds f → V.faults f.recorder.device ≡ f.faults
        → Stands V.faults p ds (ended_as f Outcome.BatchFailed) }
    ensures fault { (p : Sizes) (ds : ℕ → Draw) (f : Parts V) (access : Access) → IsLoading p ds f → EndsWith f.recorder.trace access
        → Rose f.faults (V.faults f.recorder.device) → Stands V.faults p ds (ended_as f (Outcome.DeviceFault (slot_number f.plan access))) }
{}
