//! What the lines of an attempt tell when one more bucket is exchanged.

ghost use Rattle.std.specs.Prelude.{◌≡◌, ℕ, suc, ◌+◌, ◌-◌, ◌<◌, ◌≤◌, if◌then◌else◌, List, [], ◌∷◌, ◌++◌, length, take, drop};
ghost use Rattle.std.specs.Option.{option_or};
ghost use Rattle.esa_params.specs.Sizes.{Sizes};
ghost use Rattle.esa_spec.specs.Draws.{Draw};
ghost use Rattle.esa_spec.specs.Lines.{chosen_places, backlog, chunk, queued, stashed, overflows};
ghost use Rattle.esa_spec.specs.Verdicts.{failing};

/// One exchange more, of bucket j: what it writes for a target, what waits for the target afterwards, and whether it fails.
pub fn one_exchange_more()
    ensures backlog { (p : Sizes) (d : Draw) (o : List ℕ) (j i : ℕ)
        → backlog p d (o ++ j ∷ []) (suc (length o)) i ≡ backlog p d o (length o) i + length (chosen_places p d i j) - p.c }
    ensures chunk { (p : Sizes) (d : Draw) (o : List ℕ) (j i : ℕ)
        → chunk p d (o ++ j ∷ []) (length o) i ≡ take p.c (queued p d o (length o) i ++ chosen_places p d i j) }
    ensures queued { (p : Sizes) (d : Draw) (o : List ℕ) (j i : ℕ)
        → queued p d (o ++ j ∷ []) (suc (length o)) i ≡ drop p.c (queued p d o (length o) i ++ chosen_places p d i j) }
    ensures failing { (p : Sizes) (d : Draw) (o : List ℕ) (j : ℕ)
        → failing p d (o ++ j ∷ []) ≡ option_or (failing p d o) (if overflows p d (o ++ j ∷ []) (length o) then Some (length o) else None) }
{}

/// As many places wait for a target as are queued for it.
pub fn backlog_is_counted()
    ensures { (p : Sizes) (d : Draw) (o : List ℕ) (k i : ℕ) → length (queued p d o k i) ≡ backlog p d o k i }
{}

/// Exchanges that come later change no chunk, and nothing of what waited before.
pub fn exchanges_stay()
    ensures chunk { (p : Sizes) (d : Draw) (o more : List ℕ) (k i : ℕ) → k < length o → chunk p d (o ++ more) k i ≡ chunk p d o k i }
    ensures backlog { (p : Sizes) (d : Draw) (o more : List ℕ) (k i : ℕ) → k ≤ length o → backlog p d (o ++ more) k i ≡ backlog p d o k i }
    ensures queued { (p : Sizes) (d : Draw) (o more : List ℕ) (k i : ℕ) → k ≤ length o → queued p d (o ++ more) k i ≡ queued p d o k i }
    ensures stashed { (p : Sizes) (d : Draw) (o more : List ℕ) (k : ℕ) → k ≤ length o → stashed p d (o ++ more) k ≡ stashed p d o k }
    ensures overflows { (p : Sizes) (d : Draw) (o more : List ℕ) (k : ℕ) → k < length o → overflows p d (o ++ more) k ≡ overflows p d o k }
{}
