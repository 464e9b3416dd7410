//! The buckets cover all places, and so do the targets.

ghost use Rattle.std.specs.Prelude.{◌≡◌, ℕ, ◌+◌, ◌<◌, ◌≤◌, List, length, map, count_by, ◌==◌};
ghost use Rattle.esa_params.specs.Sizes.{Sizes, first, size};
ghost use Rattle.esa_spec.specs.Draws.{Draw, IsDrawn, chosen};
ghost use Rattle.esa_spec.specs.Lines.{chunk};
ghost use Rattle.esa_spec.specs.Verdicts.{reached};

/// Each bucket begins where the one before it ends, and the last one ends with the batch.
pub fn buckets_cover()
    ensures first { (p : Sizes) → first p 0 ≡ 0 }
    ensures next { (p : Sizes) (j : ℕ) → first p (j + 1) ≡ first p j + size p j }
    ensures last { (p : Sizes) → 1 ≤ p.b → first p p.b ≡ p.n }
{}

/// Each place has a target below B, so all places are reached at B.
pub fn targets_cover()
    ensures { (p : Sizes) (d : Draw) → 1 ≤ p.b → IsDrawn p d → reached p d p.b ≡ p.n }
{}

/// No bucket has more places than the first one.
pub fn buckets_shrink()
    ensures { (p : Sizes) (j : ℕ) → size p j ≤ size p 0 }
{}

/// As many elements have a target as the target is there.
pub fn chosen_are_counted<T>()
    ensures { (i : ℕ) (targets : List ℕ) (xs : List T) → length targets ≡ length xs
        → length (chosen i targets xs) ≡ count_by (λ target. target == i) targets }
{}

/// Other elements, one for each, are chosen as those were.
pub fn chosen_of_a_map<T, U>()
    ensures { (f : T → U) (i : ℕ) (targets : List ℕ) (xs : List T) → chosen i targets (map f xs) ≡ map f (chosen i targets xs) }
{}

/// A chunk has C places at most.
pub fn chunks_are_small()
    ensures { (p : Sizes) (d : Draw) (o : List ℕ) (k i : ℕ) → k < length o → length (chunk p d o k i) ≤ p.c }
{}
