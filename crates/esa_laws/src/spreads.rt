//! What one more turn adds to the accesses of an attempt.

ghost use Rattle.std.specs.Prelude.{◌≡◌, ℕ, ◌+◌, ◌<◌, true, false, None, List, [], ◌∷◌, ◌++◌, length, take, slice_index, option_to_list};
ghost use Rattle.esa_params.specs.Sizes.{Sizes};
ghost use Rattle.esa_params.specs.declared.slot.Access.{Access};
ghost use Rattle.esa_spec.specs.Draws.{Draw};
ghost use Rattle.esa_spec.specs.Lines.{overflows};
ghost use Rattle.esa_spec.specs.Traces.{asked, made, spread};
ghost use Rattle.esa_spec.specs.Turns.{event_at, events, exchanged, next, order};
ghost use Rattle.esa_spec.specs.Verdicts.{failing, is_finished, verdict};
ghost use Rattle.esa_spec.specs.declared.event.Verdict.TheVariants.{StashOverflow};

/// One turn more asks for one access or none, and for none once an exchange has failed.
pub fn one_turn_asks()
    ensures runs { (p : Sizes) (d : Draw) (a : ℕ) (h : List ℕ) (w : ℕ) → failing p d (order p.b h) ≡ None
        → spread p d a (h ++ w ∷ []) ≡ spread p d a h ++ option_to_list (asked p a (next p.b h w)) }
    ensures failed { (p : Sizes) (d : Draw) (a : ℕ) (h : List ℕ) (w k : ℕ) → failing p d (order p.b h) ≡ Some k
        → spread p d a (h ++ w ∷ []) ≡ spread p d a h }
{}

/// The failing exchange overflows, it is one of those that were made, and it stays the failing one.
pub fn failing_stays()
    ensures made { (p : Sizes) (d : Draw) (o : List ℕ) (k : ℕ) → failing p d o ≡ Some k → k < length o }
    ensures overflows { (p : Sizes) (d : Draw) (o : List ℕ) (k : ℕ) → failing p d o ≡ Some k → overflows p d o k ≡ true }
    ensures stays { (p : Sizes) (d : Draw) (o more : List ℕ) (k : ℕ) → failing p d o ≡ Some k → failing p d (o ++ more) ≡ Some k }
{}

/// Whether an attempt in which no exchange has failed fails with the turn that is made: where the turn exchanges a bucket,
/// and more waits afterwards than the stash holds.
pub fn one_turn_fails()
    ensures no_exchange { (p : Sizes) (d : Draw) (h : List ℕ) (w : ℕ) → exchanged (next p.b h w) ≡ None
        → failing p d (order p.b (h ++ w ∷ [])) ≡ failing p d (order p.b h) }
    ensures fits { (p : Sizes) (d : Draw) (h : List ℕ) (w j : ℕ) → failing p d (order p.b h) ≡ None → exchanged (next p.b h w) ≡ Some j
        → overflows p d (order p.b h ++ j ∷ []) (length (order p.b h)) ≡ false → failing p d (order p.b (h ++ w ∷ [])) ≡ None }
    ensures finished { (p : Sizes) (d : Draw) (h : List ℕ) (w j : ℕ) → failing p d (order p.b h) ≡ None → exchanged (next p.b h w) ≡ Some j
        → overflows p d (order p.b h ++ j ∷ []) (length (order p.b h)) ≡ true → is_finished p d (h ++ w ∷ []) ≡ true }
    ensures overflow { (p : Sizes) (d : Draw) (h : List ℕ) (w j : ℕ) → failing p d (order p.b h) ≡ None → exchanged (next p.b h w) ≡ Some j
        → overflows p d (order p.b h ++ j ∷ []) (length (order p.b h)) ≡ true → verdict p d (h ++ w ∷ []) ≡ StashOverflow j }
{}

/// The turn with which an attempt fails: no exchange has failed before it, the failing one is its own, and the events up
/// to it are those that count. Whatever turns follow, it stays so.
pub fn failing_turn()
    ensures turn { (p : Sizes) (d : Draw) (h : List ℕ) (k : ℕ) → failing p d (order p.b h) ≡ Some k
        → (x : ℕ) × (x < length h)
        × (failing p d (order p.b (take x h)) ≡ None)
        × (failing p d (order p.b (take (x + 1) h)) ≡ Some k)
        × (exchanged (event_at p.b h x) ≡ Some (slice_index (order p.b h) k))
        × (length (order p.b (take x h)) ≡ k)
        × (made (Some k) (events p.b h) ≡ events p.b (take (x + 1) h)) }
    ensures stays { (p : Sizes) (d : Draw) (h more : List ℕ) (k : ℕ) → failing p d (order p.b h) ≡ Some k
        → failing p d (order p.b (h ++ more)) ≡ Some k }
{}

/// The accesses of more turns begin with those of fewer.
pub fn turns_only_add()
    ensures { (p : Sizes) (d : Draw) (a : ℕ) (h more : List ℕ)
        → (others : List Access) × (spread p d a (h ++ more) ≡ spread p d a h ++ others) }
{}
