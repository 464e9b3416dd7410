//! That a trace fits its file.

ghost use Rattle.std.specs.Prelude.{ℕ, ◌<◌, ◌≤◌, ◌^◌, List, All, length};
ghost use Rattle.esa_params.specs.Sizes.{Sizes, ArePlanned};
ghost use Rattle.esa_spec.specs.Draws.{Draw};
ghost use Rattle.esa_spec.specs.Traces.{trace};

/// A run of no more attempts than are planned has accesses whose attempts fit into a byte, and their number fits into four.
pub fn traces_fit()
    ensures attempts { (p : Sizes) (ds : ℕ → Draw) (hs : List (List ℕ)) → ArePlanned p → length hs ≤ p.attempts
        → All (λ access. access.attempt < 256) (trace p ds hs) }
    ensures number { (p : Sizes) (ds : ℕ → Draw) (hs : List (List ℕ)) → ArePlanned p → length hs ≤ p.attempts
        → length (trace p ds hs) < 2 ^ 32 }
{}
