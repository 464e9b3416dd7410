//! However a run ends, its accesses are a front of the computed trace.

ghost use Rattle.std.specs.Prelude.{◌≡◌, ℕ, ◌+◌, ◌*◌, ◌<◌, ◌≤◌, ◌==◌, ◌⊎◌, Bool, List, length, count_by};
ghost use Rattle.esa_ending.specs.Endings.{Succeeds, Overflows, DeviceFails, BlockIsTampered, BatchFails};
ghost use Rattle.esa_ending.specs.Seen.{Seen};
ghost use Rattle.esa_spec.specs.Fronts.{Begins};
ghost use Rattle.esa_params.specs.Sizes.{Sizes, ArePlanned};
ghost use Rattle.esa_params.specs.Slots.{greatest_trace, writes_number};
ghost use Rattle.esa_params.specs.declared.slot.Access.{Access};
ghost use Rattle.esa_params.specs.declared.slot.Slot.{Slot};
ghost use Rattle.esa_spec.specs.Draws.{Draw};
ghost use Rattle.esa_spec.specs.Files.{trace_bytes};
ghost use Rattle.esa_spec.specs.Traces.{trace, written_nonces, writes_in};
ghost use Rattle.esa_spec.specs.declared.event.Verdict.{Verdict};

/// However a run ends, its accesses are a front of the computed trace. They are the whole of it unless the device or
/// the batch file failed or a block was tampered with.
pub fn endings_are_fronts()
    ensures succeeded { (p : Sizes) (ds : ℕ → Draw) (hs : List (List ℕ)) (seen : Seen) (a : ℕ)
        → Succeeds p ds hs seen a → seen.trace ≡ trace p ds hs }
    ensures overflowed { (p : Sizes) (ds : ℕ → Draw) (hs : List (List ℕ)) (seen : Seen) (failures : List Verdict)
        → Overflows p ds hs seen failures → seen.trace ≡ trace p ds hs }
    ensures device_failed { (p : Sizes) (ds : ℕ → Draw) (hs : List (List ℕ)) (seen : Seen) (number : ℕ)
        → DeviceFails p ds hs seen number → Begins seen.trace (trace p ds hs) }
    ensures tampered { (p : Sizes) (ds : ℕ → Draw) (hs : List (List ℕ)) (seen : Seen) (opens : Slot → ℕ → ℕ → Bool) (number : ℕ)
        → BlockIsTampered p ds hs seen opens number → Begins seen.trace (trace p ds hs) }
    ensures batch_failed { (p : Sizes) (ds : ℕ → Draw) (hs : List (List ℕ)) (seen : Seen) (bucket : ℕ)
        → BatchFails p seen bucket → Begins seen.trace (trace p ds hs) }
    ensures whole { (p : Sizes) (ds : ℕ → Draw) (hs : List (List ℕ)) (seen : Seen)
        → seen.trace ≡ trace p ds hs → Begins seen.trace (trace p ds hs) }
{}

/// Where something failed in one of two runs of the same sizes, draws and turns, the accesses of one begin those of the
/// other.
pub fn fronts_agree()
    ensures { (whole xs ys : List Access) → Begins xs whole → Begins ys whole → Begins xs ys ⊎ Begins ys xs }
{}

/// What holds of each front of the computed trace, so of each ending: no two writes have the same nonce, no slot of the
/// input is written twice and no other slot twice in an attempt, there is room for the accesses, and a trace file has 9
/// bytes and 19 for each of them.
pub fn fronts_are_fresh()
    ensures nonces { (p : Sizes) (ds : ℕ → Draw) (hs : List (List ℕ)) (xs : List Access) (nonce : ℕ) → ArePlanned p
        → Begins xs (trace p ds hs) → count_by (λ n. n == nonce) (written_nonces xs) ≤ 1 }
    ensures input { (p : Sizes) (ds : ℕ → Draw) (hs : List (List ℕ)) (xs : List Access) (number : ℕ) → ArePlanned p → number < p.b
        → Begins xs (trace p ds hs) → count_by (writes_number p number) xs ≤ 1 }
    ensures attempt { (p : Sizes) (ds : ℕ → Draw) (hs : List (List ℕ)) (xs : List Access) (a number : ℕ) → ArePlanned p
        → Begins xs (trace p ds hs) → count_by (writes_in p a number) xs ≤ 1 }
    ensures room { (p : Sizes) (ds : ℕ → Draw) (hs : List (List ℕ)) (xs : List Access) → length hs ≤ p.attempts
        → Begins xs (trace p ds hs) → length xs ≤ greatest_trace p }
    ensures file { (p : Sizes) (ds : ℕ → Draw) (hs : List (List ℕ)) (xs : List Access) → length hs ≤ p.attempts
        → Begins xs (trace p ds hs) → length (trace_bytes xs) ≤ 9 + 19 * greatest_trace p }
{}
