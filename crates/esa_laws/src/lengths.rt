//! How many accesses a run makes at most.

ghost use Rattle.std.specs.Prelude.{ℕ, ◌+◌, ◌*◌, ◌≤◌, List, length};
ghost use Rattle.esa_params.specs.Sizes.{Sizes};
ghost use Rattle.esa_params.specs.Slots.{greatest_trace};
ghost use Rattle.esa_spec.specs.Draws.{Draw};
ghost use Rattle.esa_spec.specs.Traces.{spread, attempt_trace, shuffle_trace, trace};

/// The turns of an attempt, whatever they are, make `B + B * B` accesses at most, and an attempt makes `2 * B * B + 4B`.
/// So a run of no more attempts than are planned makes no more accesses than there is room for.
pub fn accesses_are_few()
    ensures turns { (p : Sizes) (d : Draw) (a : ℕ) (h : List ℕ) → length (spread p d a h) ≤ p.b + p.b * p.b }
    ensures attempt { (p : Sizes) (d : Draw) (a : ℕ) (h : List ℕ) → length (attempt_trace p d a h) ≤ 2 * p.b * p.b + 4 * p.b }
    ensures shuffle { (p : Sizes) (ds : ℕ → Draw) (hs : List (List ℕ))
        → length (shuffle_trace p ds hs) ≤ p.b + length hs * (2 * p.b * p.b + 4 * p.b) }
    ensures run { (p : Sizes) (ds : ℕ → Draw) (hs : List (List ℕ)) → length hs ≤ p.attempts → length (trace p ds hs) ≤ greatest_trace p }
{}
