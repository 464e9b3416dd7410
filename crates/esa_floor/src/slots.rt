//! What the slots hold, of every attempt.
//!
//! The functions do nothing when they run. They are there so that each law is proved where a contract names it.

ghost use Rattle.std.specs.Prelude.{◌≡◌, ℕ, ◌<◌, ◌≤◌, ◌++◌, ◌∷◌, All, List, [], Some, None, length, slice_index_or};
ghost use Rattle.esa_device.specs.Logs.{Carried, NoneFailed, OnlyLastFailed, latest_carried};
ghost use Rattle.esa_params.specs.Sizes.{Sizes};
ghost use Rattle.esa_params.specs.Slots.{at};
ghost use Rattle.esa_params.specs.declared.slot.Access.{Access};
ghost use Rattle.esa_params.specs.declared.slot.Region.{Region};
ghost use Rattle.esa_report.specs.declared.item.Item.{Item};
ghost use Rattle.esa_spec.specs.Draws.{Draw};
ghost use Rattle.esa_spec.specs.Histories.{begun};
ghost use Rattle.esa_spec.specs.Traces.{chunk_slot};
ghost use Rattle.esa_spec.specs.Turns.{order};
ghost use Rattle.esa_floor.specs.Keeping.{HasInput, chunk_block};
ghost use Rattle.esa_floor.specs.Parts.{Parts, begun_as, ended_as};
ghost use Rattle.esa_floor.specs.Standing.{attempt_begun, lists_before, turns_made};
ghost use Rattle.esa_floor.specs.Written.{EachTookItsBlock, IsLatest, IsOfInput, attempt_turns, output_seal, tail_seal};
ghost use Rattle.esa_floor.specs.declared.turn.Outcome.{Outcome};

use esa_device::Device;

/// The turns of an attempt are its stored list, and those of the attempt that was begun last are the turns behind it.
pub fn attempts_have_their_turns<V: Device>()
    ensures stored { (f : Parts V) (a : ℕ) → a < length (lists_before f) → attempt_turns f a ≡ slice_index_or (lists_before f) a [] }
    ensures latest { (f : Parts V) → 1 ≤ begun f.plan.workers f.history → attempt_turns f (attempt_begun f) ≡ turns_made f }
{}

/// Where only the input was accessed, each write that was to take a block took it: there is none. So it is when an attempt
/// begins and when a run ends, if it was so before.
pub fn each_write_takes_its_block<V: Device>()
    ensures input { (ds : ℕ → Draw) (record_of : ℕ → Item) (f : Parts V) → All (IsOfInput f.plan) f.recorder.log → EachTookItsBlock ds record_of f }
    ensures begun { (ds : ℕ → Draw) (record_of : ℕ → Item) (f : Parts V) (attempt : ℕ) → EachTookItsBlock ds record_of f
        → EachTookItsBlock ds record_of (begun_as f attempt) }
    ensures ended { (ds : ℕ → Draw) (record_of : ℕ → Item) (f : Parts V) (outcome : Outcome) → EachTookItsBlock ds record_of f
        → EachTookItsBlock ds record_of (ended_as f outcome) }
{}

/// The latest write of a slot took the block of its access, by the turns of its attempt, unless it failed: that of a
/// chunk, of a tail, or of an output bucket.
pub fn latest_writes_took_their_blocks<V: Device>()
    ensures chunks { (ds : ℕ → Draw) (record_of : ℕ → Item) (f : Parts V) (j i : ℕ) (access : Access) (bytes : List ℕ)
        → EachTookItsBlock ds record_of f → HasInput f record_of → j < f.plan.b → i < f.plan.b → IsLatest f (chunk_slot f.plan j i) access bytes
        → bytes ≡ chunk_block f.plan f.run access.attempt (ds access.attempt) record_of (order f.plan.b (attempt_turns f access.attempt)) j i }
    ensures tails { (ds : ℕ → Draw) (record_of : ℕ → Item) (f : Parts V) (i : ℕ) (access : Access) (bytes : List ℕ)
        → EachTookItsBlock ds record_of f → HasInput f record_of → i < f.plan.b → IsLatest f (at Region.Tail i) access bytes
        → bytes ≡ tail_seal f.plan f.run access.attempt (ds access.attempt) record_of (order f.plan.b (attempt_turns f access.attempt)) i }
    ensures outputs { (ds : ℕ → Draw) (record_of : ℕ → Item) (f : Parts V) (j : ℕ) (access : Access) (bytes : List ℕ)
        → EachTookItsBlock ds record_of f → HasInput f record_of → j < f.plan.b → IsLatest f (at Region.Output j) access bytes
        → bytes ≡ output_seal f.plan f.run access.attempt (ds access.attempt) record_of (attempt_turns f access.attempt) j }
{}

/// Where no access failed but the last one, the latest write of each slot took bytes, unless it is that access. Where none
/// failed at all, each did.
pub fn latest_writes_moved_their_bytes()
    ensures each { (p : Sizes) (number : ℕ) (entry : Carried) (log : List Carried) → NoneFailed log → latest_carried p number log ≡ Some entry
        → (bytes : List ℕ) × (entry.bytes ≡ Some bytes) }
    ensures failed { (p : Sizes) (number : ℕ) (access : Access) (log : List Carried) → OnlyLastFailed log
        → latest_carried p number log ≡ Some (record { access = access; bytes = None })
        → (before : List Carried) × (log ≡ before ++ record { access = access; bytes = None } ∷ []) }
{}
