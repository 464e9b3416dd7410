//! What a history tells of its turns when it goes on.

ghost use Rattle.std.specs.Prelude.{◌≡◌, ◌≢◌, ℕ, ◌+◌, ◌<◌, ◌≤◌, ◌==◌, if◌then◌else◌, List, [], ◌∷◌, ◌++◌, length, count_by, option_to_list};
ghost use Rattle.esa_params.specs.Sizes.{Sizes};
ghost use Rattle.esa_spec.specs.Draws.{Draw};
ghost use Rattle.esa_spec.specs.Lines.{chunk};
ghost use Rattle.esa_spec.specs.Places.{exchange_of};
ghost use Rattle.esa_spec.specs.declared.event.Event.{Event};
ghost use Rattle.esa_spec.specs.Turns.{turns_of, event_at, events, next, next_phase, claims, held, acted, exchanged, order, is_write, writes};

/// What a turn does stays the same when the history goes on.
pub fn events_stay()
    ensures { (b : ℕ) (h more : List ℕ) (x : ℕ) → x < length h → event_at b (h ++ more) x ≡ event_at b h x }
{}

/// One turn more: its event comes behind the others, and so do the bucket that it exchanges and the chunk that it writes.
pub fn one_turn_more()
    ensures turns { (v w : ℕ) (h : List ℕ) → turns_of v (h ++ w ∷ []) ≡ turns_of v h + (if w == v then 1 else 0) }
    ensures events { (b : ℕ) (h : List ℕ) (w : ℕ) → events b (h ++ w ∷ []) ≡ events b h ++ next b h w ∷ [] }
    ensures order { (b : ℕ) (h : List ℕ) (w : ℕ) → order b (h ++ w ∷ []) ≡ order b h ++ option_to_list (exchanged (next b h w)) }
    ensures writes { (b : ℕ) (h : List ℕ) (w : ℕ) → writes b (h ++ w ∷ []) ≡ writes b h + (if is_write (next b h w) then 1 else 0) }
    ensures claims { (b : ℕ) (h : List ℕ) (w : ℕ) → claims b (h ++ w ∷ []) ≡ claims b h + (if next_phase b h w == 0 then 1 else 0) }
{}

/// What the next turn of a worker does, by its phase and the bucket of its round. A turn that begins a round takes the
/// next bucket, and the bucket stays as long as the round goes on, whatever other workers do.
pub fn rounds_go_on()
    ensures next { (b : ℕ) (h : List ℕ) (w : ℕ) → next b h w ≡ acted b (claims b h) (next_phase b h w) (held b h w) }
    ensures claimed { (b : ℕ) (h : List ℕ) (w : ℕ) → next_phase b h w ≡ 0 → held b h w ≡ claims b h }
    ensures own { (b : ℕ) (h : List ℕ) (w : ℕ) → next_phase b (h ++ w ∷ []) w ≢ 0 → held b (h ++ w ∷ []) w ≡ held b h w }
    ensures others { (b : ℕ) (h : List ℕ) (v w : ℕ) → v ≢ w → next_phase b h v ≢ 0 → held b (h ++ w ∷ []) v ≡ held b h v }
{}

/// Any turns more: the events and the exchanges go on, the exchange of a bucket keeps its number and its chunks, and a
/// worker that had none of the turns stands where it stood.
pub fn many_turns_more()
    ensures events { (b : ℕ) (h more : List ℕ) → (others : List Event) × (events b (h ++ more) ≡ events b h ++ others) }
    ensures order { (b : ℕ) (h more : List ℕ) → (others : List ℕ) × (order b (h ++ more) ≡ order b h ++ others) }
    ensures exchange { (b : ℕ) (h more : List ℕ) (j : ℕ) → 1 ≤ count_by (λ k. k == j) (order b h)
        → exchange_of (order b (h ++ more)) j ≡ exchange_of (order b h) j }
    ensures chunk { (p : Sizes) (d : Draw) (h more : List ℕ) (j i : ℕ) → 1 ≤ count_by (λ k. k == j) (order p.b h)
        → chunk p d (order p.b (h ++ more)) (exchange_of (order p.b (h ++ more)) j) i
        ≡ chunk p d (order p.b h) (exchange_of (order p.b h) j) i }
    ensures phase { (b : ℕ) (h more : List ℕ) (v : ℕ) → turns_of v more ≡ 0 → next_phase b (h ++ more) v ≡ next_phase b h v }
    ensures held { (b : ℕ) (h more : List ℕ) (v : ℕ) → turns_of v more ≡ 0 → next_phase b h v ≢ 0 → held b (h ++ more) v ≡ held b h v }
{}
