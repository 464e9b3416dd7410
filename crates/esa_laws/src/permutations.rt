//! No record is lost or doubled.

ghost use Rattle.std.specs.Prelude.{◌≡◌, ℕ, ◌+◌, ◌*◌, ◌<◌, ◌≤◌, true, None, List, length, flat_map, sum_by, IsPermutation};
ghost use Rattle.esa_params.specs.Sizes.{Sizes, below};
ghost use Rattle.esa_spec.specs.Draws.{Draw, IsDrawn};
ghost use Rattle.esa_spec.specs.Lines.{chosen_places, backlog, chunk};
ghost use Rattle.esa_spec.specs.Places.{exchange_of, arranged, places};
ghost use Rattle.esa_spec.specs.Turns.{order, writes};
ghost use Rattle.esa_spec.specs.Verdicts.{is_finished, left, reached, verdict};
ghost use Rattle.esa_spec.specs.declared.event.Verdict.TheVariants.{Good};

/// Where an attempt is good, the places in the order in which they come out are a permutation of all places.
pub fn places_permute()
    ensures { (p : Sizes) (d : Draw) (h : List ℕ) → 1 ≤ p.b → IsDrawn p d → is_finished p d h ≡ true → verdict p d h ≡ Good
        → IsPermutation (below p.n) (places p d h) }
{}

/// What is imported for a target, arranged by its order, is the places that have it. So the places imported for the
/// targets below m are as many as are reached.
pub fn imports_are_reached()
    ensures permutes { (p : Sizes) (d : Draw) (h : List ℕ) → IsDrawn p d → writes p.b h ≡ p.b * p.b → left p d (order p.b h) ≡ None
        → (i : ℕ) → i < p.b → IsPermutation (flat_map (chosen_places p d i) (below p.b)) (arranged p d (order p.b h) i) }
    ensures one { (p : Sizes) (d : Draw) (h : List ℕ) → IsDrawn p d → writes p.b h ≡ p.b * p.b → left p d (order p.b h) ≡ None
        → (i : ℕ) → i < p.b → reached p d (i + 1) ≡ reached p d i + length (arranged p d (order p.b h) i) }
    ensures all { (p : Sizes) (d : Draw) (h : List ℕ) → IsDrawn p d → writes p.b h ≡ p.b * p.b → left p d (order p.b h) ≡ None
        → (m : ℕ) → m ≤ p.b → length (flat_map (arranged p d (order p.b h)) (below m)) ≡ reached p d m }
{}

/// What is arranged for a target is as long as its chunks and its tail together.
pub fn parts_are_arranged()
    ensures { (p : Sizes) (d : Draw) (h : List ℕ) → IsDrawn p d → writes p.b h ≡ p.b * p.b → left p d (order p.b h) ≡ None
        → (i : ℕ) → i < p.b
        → sum_by (λ j. length (chunk p d (order p.b h) (exchange_of (order p.b h) j) i)) (below p.b) + backlog p d (order p.b h) p.b i
        ≡ length (arranged p d (order p.b h) i) }
{}
