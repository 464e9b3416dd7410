//! No nonce is used twice, and no block is written twice in an attempt.

ghost use Rattle.std.specs.Prelude.{ℕ, ◌<◌, ◌≤◌, ◌==◌, List, count_by};
ghost use Rattle.esa_params.specs.Sizes.{Sizes, ArePlanned};
ghost use Rattle.esa_params.specs.Slots.{writes_number};
ghost use Rattle.esa_spec.specs.Draws.{Draw};
ghost use Rattle.esa_spec.specs.Traces.{trace, written_nonces, writes_in};

/// No two writes of a run have the same nonce, whatever the turns and the coins.
pub fn nonces_are_fresh()
    ensures { (p : Sizes) (ds : ℕ → Draw) (hs : List (List ℕ)) (nonce : ℕ) → ArePlanned p
        → count_by (λ n. n == nonce) (written_nonces (trace p ds hs)) ≤ 1 }
{}

/// No slot of the input is written twice in a run, and no other slot twice in an attempt.
pub fn slots_are_written_once()
    ensures input { (p : Sizes) (ds : ℕ → Draw) (hs : List (List ℕ)) (number : ℕ) → ArePlanned p → number < p.b
        → count_by (writes_number p number) (trace p ds hs) ≤ 1 }
    ensures attempt { (p : Sizes) (ds : ℕ → Draw) (hs : List (List ℕ)) (a number : ℕ) → ArePlanned p
        → count_by (writes_in p a number) (trace p ds hs) ≤ 1 }
{}
