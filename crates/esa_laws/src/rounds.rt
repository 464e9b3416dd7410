//! Each bucket is claimed in one round at most, exchanged there once, and written after that.

ghost use Rattle.std.specs.Prelude.{◌≡◌, ◌≢◌, ℕ, ◌+◌, ◌*◌, ◌<◌, ◌≤◌, List, [], ◌∷◌, ◌++◌, length, slice_index, count_by, ◌==◌, All, IsPermutation};
ghost use Rattle.esa_params.specs.Sizes.{below};
ghost use Rattle.esa_spec.specs.Places.{exchange_of};
ghost use Rattle.esa_spec.specs.Turns.{event_at, events, exchanged, held, is_write_at, next, next_phase, order, turns_of, writes};
ghost use Rattle.esa_spec.specs.declared.event.Event.TheVariants.{Done, Write};

/// No bucket is exchanged twice, whatever the turns.
pub fn no_bucket_twice()
    ensures { (b : ℕ) (h : List ℕ) (j : ℕ) → j < b → count_by (λ i. i == j) (order b h) ≤ 1 }
{}

/// Where all chunks are written, each bucket was exchanged exactly once.
pub fn each_bucket_once()
    ensures once { (b : ℕ) (h : List ℕ) (j : ℕ) → writes b h ≡ b * b → j < b → count_by (λ i. i == j) (order b h) ≡ 1 }
    ensures count { (b : ℕ) (h : List ℕ) → writes b h ≡ b * b → length (order b h) ≡ b }
    ensures permutes { (b : ℕ) (h : List ℕ) → writes b h ≡ b * b → IsPermutation (below b) (order b h) }
{}

/// The exchange of a bucket keeps its number, and a bucket that is exchanged now is a new one.
pub fn exchanges_are_numbered()
    ensures stays { (o more : List ℕ) (j : ℕ) → 1 ≤ count_by (λ i. i == j) o → exchange_of (o ++ more) j ≡ exchange_of o j }
    ensures last { (o : List ℕ) (j : ℕ) → count_by (λ i. i == j) o ≡ 0 → exchange_of (o ++ j ∷ []) j ≡ length o }
    ensures bucket { (b : ℕ) (h : List ℕ) (w j : ℕ) → exchanged (next b h w) ≡ Some j → j < b }
    ensures fresh { (b : ℕ) (h : List ℕ) (w j : ℕ) → exchanged (next b h w) ≡ Some j → count_by (λ i. i == j) (order b h) ≡ 0 }
{}

/// A chunk is written after the exchange of its bucket, and no chunk is written twice. Where all chunks are written, each
/// pair of a bucket and a target was written exactly once.
pub fn each_pair_once()
    ensures exchanged { (b : ℕ) (h : List ℕ) (w j i : ℕ) → next b h w ≡ Write j i → count_by (λ k. k == j) (order b h) ≡ 1 }
    ensures fresh { (b : ℕ) (h : List ℕ) (w j i : ℕ) → next b h w ≡ Write j i → count_by (is_write_at j i) (events b h) ≡ 0 }
    ensures few { (b : ℕ) (h : List ℕ) (j i : ℕ) → count_by (is_write_at j i) (events b h) ≤ 1 }
    ensures once { (b : ℕ) (h : List ℕ) (j i : ℕ) → writes b h ≡ b * b → j < b → i < b
        → count_by (is_write_at j i) (events b h) ≡ 1 }
{}

/// A worker that had B whole rounds finds no bucket left. Where each worker stands in a round that has none, or had a turn
/// that found none, all chunks are written.
pub fn workers_are_done()
    ensures done { (b : ℕ) (h : List ℕ) (v : ℕ) → turns_of v h ≡ b * (b + 3) → next b h v ≡ Done }
    ensures written { (b workers : ℕ) (h : List ℕ) → 1 ≤ workers → All (λ v. v < workers) h
        → ((v : ℕ) → v < workers → (next_phase b h v ≢ 0) × (b ≤ held b h v)) → writes b h ≡ b * b }
    ensures turns { (b workers : ℕ) (h : List ℕ) → 1 ≤ workers → All (λ v. v < workers) h
        → ((v : ℕ) → v < workers → (x : ℕ) × (x < length h) × (slice_index h x ≡ v) × (event_at b h x ≡ Done)) → writes b h ≡ b * b }
{}
