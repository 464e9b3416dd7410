//! A completed list of turns comes to its end, and a list that is finished loses nothing by completion.

ghost use Rattle.std.specs.Prelude.{◌≡◌, ℕ, ◌+◌, ◌*◌, ◌%◌, ◌<◌, ◌≤◌, true, false, None, List, ◌++◌, length, take, slice_index, All};
ghost use Rattle.esa_params.specs.Sizes.{Sizes};
ghost use Rattle.esa_spec.specs.Completion.{completed, full, all_finished, completions};
ghost use Rattle.esa_spec.specs.Draws.{Draw};
ghost use Rattle.esa_spec.specs.Places.{places};
ghost use Rattle.esa_spec.specs.Traces.{attempt_trace, trace};
ghost use Rattle.esa_spec.specs.Turns.{order, writes};
ghost use Rattle.esa_spec.specs.Verdicts.{failing, is_finished, verdict};

/// Completed by `B * (B + 3)` turns of each worker, any turns of workers write all chunks. So the completion is finished,
/// and no shorter beginning of it is.
pub fn completion_is_finished()
    ensures written { (p : Sizes) (turns : List ℕ) → 1 ≤ p.workers → All (λ v. v < p.workers) turns
        → writes p.b (completed p turns) ≡ p.b * p.b }
    ensures finished { (p : Sizes) (d : Draw) (turns : List ℕ) → 1 ≤ p.workers → All (λ v. v < p.workers) turns
        → is_finished p d (full p d turns) ≡ true }
    ensures shortest { (p : Sizes) (d : Draw) (turns : List ℕ) → 1 ≤ p.workers → All (λ v. v < p.workers) turns
        → (m : ℕ) → m < length (full p d turns) → is_finished p d (take m (full p d turns)) ≡ false }
    ensures added { (p : Sizes) (d : Draw) (turns : List ℕ) → length (full p d turns) ≤ length turns + p.b * (p.b + 3) * p.workers }
{}

/// The completion of a finished history is a beginning of it, with the same verdict, the same accesses and, where no
/// exchange failed, the same places. So a run of finished histories makes the accesses of their completions.
pub fn completion_is_a_prefix()
    ensures prefix { (p : Sizes) (d : Draw) (h : List ℕ) → is_finished p d h ≡ true → full p d h ≡ take (length (full p d h)) h }
    ensures finished { (p : Sizes) (d : Draw) (h : List ℕ) → is_finished p d h ≡ true → is_finished p d (full p d h) ≡ true }
    ensures verdict { (p : Sizes) (d : Draw) (h : List ℕ) → is_finished p d h ≡ true → verdict p d h ≡ verdict p d (full p d h) }
    ensures trace { (p : Sizes) (d : Draw) (a : ℕ) (h : List ℕ) → is_finished p d h ≡ true
        → attempt_trace p d a h ≡ attempt_trace p d a (full p d h) }
    ensures places { (p : Sizes) (d : Draw) (h : List ℕ) → is_finished p d h ≡ true → failing p d (order p.b (full p d h)) ≡ None
        → places p d h ≡ places p d (full p d h) }
    ensures places_made { (p : Sizes) (d : Draw) (h : List ℕ) → is_finished p d h ≡ true → failing p d (order p.b h) ≡ None
        → places p d h ≡ places p d (full p d h) }
    ensures run { (p : Sizes) (ds : ℕ → Draw) (hs : List (List ℕ)) → all_finished p ds 0 hs ≡ true
        → trace p ds (completions p ds 0 hs) ≡ trace p ds hs }
{}

/// Turns that are made after an attempt is finished change nothing.
pub fn finished_stays()
    ensures finished { (p : Sizes) (d : Draw) (g more : List ℕ) → is_finished p d g ≡ true → is_finished p d (g ++ more) ≡ true }
    ensures verdict { (p : Sizes) (d : Draw) (g more : List ℕ) → is_finished p d g ≡ true → verdict p d (g ++ more) ≡ verdict p d g }
    ensures trace { (p : Sizes) (d : Draw) (a : ℕ) (g more : List ℕ) → is_finished p d g ≡ true
        → attempt_trace p d a (g ++ more) ≡ attempt_trace p d a g }
    ensures places { (p : Sizes) (d : Draw) (g more : List ℕ) → is_finished p d g ≡ true → failing p d (order p.b g) ≡ None
        → places p d (g ++ more) ≡ places p d g }
{}

/// The completion as it is found turn by turn: the turns that were handed in, and then those of all workers in a round.
pub fn completion_is_found()
    ensures full { (p : Sizes) (d : Draw) (turns : List ℕ) (m : ℕ) → m ≤ length (completed p turns)
        → is_finished p d (take m (completed p turns)) ≡ true
        → ((x : ℕ) → x < m → is_finished p d (take x (completed p turns)) ≡ false)
        → full p d turns ≡ take m (completed p turns) }
    ensures handed_in { (p : Sizes) (turns : List ℕ) (x : ℕ) → x < length turns → slice_index (completed p turns) x ≡ slice_index turns x }
    ensures added { (p : Sizes) (turns : List ℕ) (y : ℕ) → y < p.b * (p.b + 3) * p.workers
        → slice_index (completed p turns) (length turns + y) ≡ y % p.workers }
    ensures count { (p : Sizes) (turns : List ℕ) → length (completed p turns) ≡ length turns + p.b * (p.b + 3) * p.workers }
{}
