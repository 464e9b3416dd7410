//! The records that come out are those of the batch, in another order.

ghost use Rattle.std.specs.Prelude.{◌≡◌, ℕ, ◌<◌, ◌≤◌, List, slice_get, slice_index, IsPermutation};
ghost use Rattle.esa_ending.specs.Endings.{Succeeds, ComesOut};
ghost use Rattle.esa_ending.specs.Seen.{Seen, turns_in};
ghost use Rattle.esa_params.specs.Sizes.{Sizes};
ghost use Rattle.esa_spec.specs.Draws.{Draw, IsDrawn};
ghost use Rattle.esa_spec.specs.Places.{places};

/// Where an attempt succeeds and the records come out in its order, none is lost or doubled, and at each position of
/// the output stands the record of the place that the definitions give.
pub fn records_are_permuted<T>()
    ensures permuted { (p : Sizes) (ds : ℕ → Draw) (hs : List (List ℕ)) (seen : Seen) (a : ℕ) (records out : List T)
        → 1 ≤ p.b → IsDrawn p (ds a) → Succeeds p ds hs seen a → ComesOut p ds hs a records out → IsPermutation records out }
    ensures position { (p : Sizes) (ds : ℕ → Draw) (hs : List (List ℕ)) (seen : Seen) (a : ℕ) (records out : List T) (x : ℕ)
        → 1 ≤ p.b → IsDrawn p (ds a) → Succeeds p ds hs seen a → ComesOut p ds hs a records out → x < p.n
        → slice_get out x ≡ slice_get records (slice_index (places p (ds a) (turns_in hs a)) x) }
{}
