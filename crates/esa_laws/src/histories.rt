//! The lists of a history when it goes on.

ghost use Rattle.std.specs.Prelude.{◌≡◌, ◌≢◌, ℕ, ◌+◌, ◌-◌, ◌≤◌, List, [], ◌∷◌, ◌++◌, length};
ghost use Rattle.esa_spec.specs.Histories.{lists, latest, begun};

/// A turn of a worker goes behind the latest list and leaves the others.
pub fn one_turn_stored()
    ensures begun { (owner : ℕ) (h : List ℕ) (w : ℕ) → w ≢ owner → begun owner (h ++ w ∷ []) ≡ begun owner h }
    ensures lists { (owner : ℕ) (h : List ℕ) (w : ℕ) → w ≢ owner → lists owner (h ++ w ∷ []) ≡ lists owner h }
    ensures latest { (owner : ℕ) (h : List ℕ) (w : ℕ) → w ≢ owner → latest owner (h ++ w ∷ []) ≡ latest owner h ++ w ∷ [] }
{}

/// An entry of the owner begins an empty list. It ends the latest list, where one was begun.
pub fn one_owner_entry_stored()
    ensures begun { (owner : ℕ) (h : List ℕ) → begun owner (h ++ owner ∷ []) ≡ begun owner h + 1 }
    ensures lists { (owner : ℕ) (h : List ℕ) → 1 ≤ begun owner h → lists owner (h ++ owner ∷ []) ≡ lists owner h ++ latest owner h ∷ [] }
    ensures first { (owner : ℕ) (h : List ℕ) → begun owner h ≡ 0 → lists owner (h ++ owner ∷ []) ≡ [] }
    ensures latest { (owner : ℕ) (h : List ℕ) → latest owner (h ++ owner ∷ []) ≡ [] }
{}

/// There is a list for each entry of the owner but the last.
pub fn lists_are_counted()
    ensures { (owner : ℕ) (h : List ℕ) → length (lists owner h) ≡ begun owner h - 1 }
{}
