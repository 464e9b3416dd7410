//! How a queue goes on when one more batch comes in.

ghost use Rattle.std.specs.Prelude.{◌≡◌, ℕ, suc, ◌+◌, ◌-◌, ◌<◌, ◌≤◌, List, [], ◌∷◌, ◌++◌, length, take, drop, map};
ghost use Rattle.esa_spec.specs.Queue.{waiting, departed, leaving, queue};

/// One batch more: up to c of those that waited and those that came in leave, the first ones first, and the others wait.
pub fn one_batch_more<T>()
    ensures waiting { (c : ℕ) (es : List (List T)) (e : List T)
        → waiting c (es ++ e ∷ []) (suc (length es)) ≡ waiting c es (length es) + length e - c }
    ensures leaving { (c : ℕ) (es : List (List T)) (e : List T) → leaving c (es ++ e ∷ []) (length es) ≡ take c (queue c es (length es) ++ e) }
    ensures queue { (c : ℕ) (es : List (List T)) (e : List T)
        → queue c (es ++ e ∷ []) (suc (length es)) ≡ drop c (queue c es (length es) ++ e) }
{}

/// As many wait as are in the queue.
pub fn waiting_is_counted<T>()
    ensures { (c : ℕ) (es : List (List T)) (k : ℕ) → k ≤ length es → length (queue c es k) ≡ waiting c es k }
{}

/// Batches that come later change nothing of what was before.
pub fn later_batches<T>()
    ensures waiting { (c : ℕ) (es more : List (List T)) (k : ℕ) → k ≤ length es → waiting c (es ++ more) k ≡ waiting c es k }
    ensures leaving { (c : ℕ) (es more : List (List T)) (k : ℕ) → k < length es → leaving c (es ++ more) k ≡ leaving c es k }
    ensures queue { (c : ℕ) (es more : List (List T)) (k : ℕ) → k ≤ length es → queue c (es ++ more) k ≡ queue c es k }
{}

/// Batches whose elements are others, one for each: what leaves and what waits are the others of those elements.
pub fn mapped_batches<T, U>()
    ensures waiting { (f : T → U) (c : ℕ) (es : List (List T)) (k : ℕ) → waiting c (map (map f) es) k ≡ waiting c es k }
    ensures leaving { (f : T → U) (c : ℕ) (es : List (List T)) (k : ℕ) → leaving c (map (map f) es) k ≡ map f (leaving c es k) }
    ensures queue { (f : T → U) (c : ℕ) (es : List (List T)) (k : ℕ) → queue c (map (map f) es) k ≡ map f (queue c es k) }
{}

/// How many wait and how many have left is a matter of the batches' lengths alone.
pub fn lengths_decide<T, U>()
    ensures waiting { (c : ℕ) (es : List (List T)) (fs : List (List U)) → map (λ e. length e) es ≡ map (λ e. length e) fs
        → (k : ℕ) → waiting c es k ≡ waiting c fs k }
    ensures departed { (c : ℕ) (es : List (List T)) (fs : List (List U)) → map (λ e. length e) es ≡ map (λ e. length e) fs
        → (k : ℕ) → departed c es k ≡ departed c fs k }
{}
