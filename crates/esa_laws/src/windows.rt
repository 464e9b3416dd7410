//! The window's queue: what it holds, and what each step of the compression finds there.

ghost use Rattle.std.specs.Prelude.{◌≡◌, ℕ, suc, ◌+◌, ◌-◌, ◌*◌, ◌<◌, ◌≤◌, nat_lt, if◌then◌else◌, None, List, ◌++◌, length, take, drop, sum_by};
ghost use Rattle.esa_params.specs.Sizes.{Sizes, below, first, size};
ghost use Rattle.esa_spec.specs.Draws.{Draw, IsDrawn};
ghost use Rattle.esa_spec.specs.Lines.{backlog, chunk};
ghost use Rattle.esa_spec.specs.Places.{exchange_of, arranged, output_places, window};
ghost use Rattle.esa_spec.specs.Turns.{order, writes};
ghost use Rattle.esa_spec.specs.Verdicts.{imported, left, reached, step_verdict, Import, Put};
ghost use Rattle.esa_spec.specs.declared.event.Verdict.TheVariants.{Good, QueueOverflow, QueueStarved};

/// An import of what is arranged for a target goes behind the queue. It overflows where both together are more than Q.
pub fn one_import()
    ensures held { (p : Sizes) (d : Draw) (h : List ℕ) → IsDrawn p d → writes p.b h ≡ p.b * p.b → left p d (order p.b h) ≡ None
        → (j i : ℕ) → i ≤ p.b → length (window p d (order p.b h) j i) ≡ reached p d i - first p j }
    ensures verdict { (p : Sizes) (d : Draw) (h : List ℕ) → IsDrawn p d → writes p.b h ≡ p.b * p.b → left p d (order p.b h) ≡ None
        → (j i : ℕ) → i < p.b → first p j ≤ reached p d i
        → step_verdict p d (Import j i)
        ≡ (if nat_lt p.q (length (window p d (order p.b h) j i) + length (arranged p d (order p.b h) i)) then QueueOverflow i else Good) }
    ensures queue { (p : Sizes) (d : Draw) (h : List ℕ) → IsDrawn p d → writes p.b h ≡ p.b * p.b → left p d (order p.b h) ≡ None
        → (j i : ℕ) → i < p.b → first p j ≤ reached p d i
        → window p d (order p.b h) j (i + 1) ≡ window p d (order p.b h) j i ++ arranged p d (order p.b h) i }
    ensures more { (p : Sizes) (d : Draw) (h : List ℕ) → IsDrawn p d → writes p.b h ≡ p.b * p.b → left p d (order p.b h) ≡ None
        → (i : ℕ) → i < p.b → reached p d i ≤ reached p d (i + 1) }
{}

/// An output bucket takes its places from the front of the queue. It is starved where the queue has fewer.
pub fn one_output()
    ensures verdict { (p : Sizes) (d : Draw) (h : List ℕ) → IsDrawn p d → writes p.b h ≡ p.b * p.b → left p d (order p.b h) ≡ None
        → (j : ℕ) → first p j ≤ reached p d (imported p (suc j)) → imported p (suc j) ≤ p.b
        → step_verdict p d (Put j)
        ≡ (if nat_lt (length (window p d (order p.b h) j (imported p (suc j)))) (size p j) then QueueStarved j else Good) }
    ensures places { (p : Sizes) (d : Draw) (h : List ℕ) → IsDrawn p d → writes p.b h ≡ p.b * p.b → left p d (order p.b h) ≡ None
        → (j i : ℕ) → i ≤ p.b → first p (j + 1) ≤ reached p d i
        → take (size p j) (window p d (order p.b h) j i) ≡ output_places p d h j }
    ensures queue { (p : Sizes) (d : Draw) (h : List ℕ) → IsDrawn p d → writes p.b h ≡ p.b * p.b → left p d (order p.b h) ≡ None
        → (j i : ℕ) → drop (size p j) (window p d (order p.b h) j i) ≡ window p d (order p.b h) (j + 1) i }
{}

/// The queue is as long as the chunks and tails of the targets that were imported, less the places that were put out.
pub fn parts_are_held()
    ensures { (p : Sizes) (d : Draw) (h : List ℕ) → IsDrawn p d → writes p.b h ≡ p.b * p.b → left p d (order p.b h) ≡ None
        → (j i : ℕ) → i ≤ p.b
        → length (window p d (order p.b h) j i)
        ≡ sum_by (λ t. sum_by (λ k. length (chunk p d (order p.b h) (exchange_of (order p.b h) k) t)) (below p.b) + backlog p d (order p.b h) p.b t) (below i)
        - first p j }
{}
