//! Laws of the window: a queue that is fed block by block is the list of places of the definitions, and its refusals are
//! theirs. Each law is what a function with an empty body ensures.
//!
//! In them h is the turns of an attempt in which all chunks were written and no target left more than a tail, and each
//! place has the item of its record, which is no dummy.

ghost use Rattle.std.specs.Prelude.{◌≡◌, ℕ, suc, ◌+◌, ◌-◌, ◌*◌, ◌<◌, ◌≤◌, nat_lt, true, if◌then◌else◌, None, List, [], ◌++◌, IsPermutation, length, take, drop, map};
ghost use Rattle.esa_params.specs.Sizes.{Sizes, below, first, size};
ghost use Rattle.esa_report.specs.declared.item.Item.{Item};
ghost use Rattle.esa_spec.specs.Draws.{Draw, IsDrawn};
ghost use Rattle.esa_spec.specs.Places.{arranged, output_places, window};
ghost use Rattle.esa_spec.specs.Turns.{order, writes};
ghost use Rattle.esa_spec.specs.Verdicts.{imported, left, reached, step_verdict, steps, first_bad, Import, Put};
ghost use Rattle.esa_spec.specs.declared.event.Verdict.TheVariants.{Good, QueueOverflow, QueueStarved};
ghost use Rattle.esa_compress.specs.Fed.{fed_verdict, fed_outputs};
ghost use Rattle.esa_compress.specs.Held.{is_held, held_in, held_count};
ghost use Rattle.esa_compress.specs.Imported.{import_items, parts_of};

/// The items that are imported for a target, arranged by its order and freed of dummies, are those of the places that are
/// arranged for it. As many enter as its chunks and its tail have places.
pub fn imports_are_arranged()
    ensures items { (record_of : ℕ → Item) → ((x : ℕ) → is_held (record_of x) ≡ true) → (p : Sizes) (d : Draw) (o : List ℕ) (i : ℕ)
        → held_in (import_items record_of p d o i) (d.order i) ≡ map record_of (arranged p d o i) }
    ensures count { (record_of : ℕ → Item) → ((x : ℕ) → is_held (record_of x) ≡ true) → (p : Sizes) (d : Draw) (o : List ℕ) (i : ℕ)
        → held_count (import_items record_of p d o i) ≡ parts_of p d o i }
    ensures each_once { (p : Sizes) (d : Draw) (h : List ℕ) → IsDrawn p d → writes p.b h ≡ p.b * p.b → left p d (order p.b h) ≡ None
        → (record_of : ℕ → Item) → ((x : ℕ) → is_held (record_of x) ≡ true) → (i : ℕ) → i < p.b
        → IsPermutation (below (length (import_items record_of p d (order p.b h) i))) (d.order i) }
{}

/// An import into a queue that holds the records of the window: whether it overflows, and what the queue is then.
pub fn one_import_held()
    ensures verdict { (p : Sizes) (d : Draw) (h : List ℕ) → IsDrawn p d → writes p.b h ≡ p.b * p.b → left p d (order p.b h) ≡ None
        → (record_of : ℕ → Item) → ((x : ℕ) → is_held (record_of x) ≡ true) → (j i : ℕ) → i < p.b → first p j ≤ reached p d i
        → step_verdict p d (Import j i)
        ≡ (if nat_lt p.q (length (map record_of (window p d (order p.b h) j i)) + held_count (import_items record_of p d (order p.b h) i))
        then QueueOverflow i else Good) }
    ensures queue { (p : Sizes) (d : Draw) (h : List ℕ) → IsDrawn p d → writes p.b h ≡ p.b * p.b → left p d (order p.b h) ≡ None
        → (record_of : ℕ → Item) → ((x : ℕ) → is_held (record_of x) ≡ true) → (j i : ℕ) → i < p.b → first p j ≤ reached p d i
        → map record_of (window p d (order p.b h) j i) ++ held_in (import_items record_of p d (order p.b h) i) (d.order i)
        ≡ map record_of (window p d (order p.b h) j (i + 1)) }
{}

/// The same by counts alone, whatever the items are: where so many wait as have been reached and not been put out, and so
/// many more come as the target's chunks and tail have places. No more than all places ever wait.
pub fn one_import_counted()
    ensures verdict { (p : Sizes) (d : Draw) (h : List ℕ) → IsDrawn p d → writes p.b h ≡ p.b * p.b → left p d (order p.b h) ≡ None
        → (j i waiting more : ℕ) → i < p.b → first p j ≤ reached p d i → waiting ≡ reached p d i - first p j
        → more ≡ parts_of p d (order p.b h) i
        → step_verdict p d (Import j i) ≡ (if nat_lt p.q (waiting + more) then QueueOverflow i else Good) }
    ensures waiting { (p : Sizes) (d : Draw) (h : List ℕ) → IsDrawn p d → writes p.b h ≡ p.b * p.b → left p d (order p.b h) ≡ None
        → (j i waiting more : ℕ) → i < p.b → first p j ≤ reached p d i → waiting ≡ reached p d i - first p j
        → more ≡ parts_of p d (order p.b h) i → waiting + more ≡ reached p d (i + 1) - first p j }
    ensures few { (p : Sizes) (d : Draw) (h : List ℕ) → IsDrawn p d → writes p.b h ≡ p.b * p.b → left p d (order p.b h) ≡ None
        → (i : ℕ) → i ≤ p.b → 1 ≤ p.b → reached p d i ≤ p.n }
{}

/// An output bucket out of a queue that holds the records of the window: what is taken, and what the queue is then.
pub fn one_output_held()
    ensures front { (p : Sizes) (d : Draw) (h : List ℕ) → IsDrawn p d → writes p.b h ≡ p.b * p.b → left p d (order p.b h) ≡ None
        → (record_of : ℕ → Item) (j i : ℕ) → i ≤ p.b → first p (j + 1) ≤ reached p d i
        → take (size p j) (map record_of (window p d (order p.b h) j i)) ≡ map record_of (output_places p d h j) }
    ensures queue { (p : Sizes) (d : Draw) (h : List ℕ) → IsDrawn p d → writes p.b h ≡ p.b * p.b → left p d (order p.b h) ≡ None
        → (record_of : ℕ → Item) (j i : ℕ)
        → drop (size p j) (map record_of (window p d (order p.b h) j i)) ≡ map record_of (window p d (order p.b h) (j + 1) i) }
{}

/// Whether an output bucket is starved, by counts alone.
pub fn one_output_counted()
    ensures { (p : Sizes) (d : Draw) (j waiting : ℕ) → first p j ≤ reached p d (imported p (suc j))
        → waiting ≡ reached p d (imported p (suc j)) - first p j
        → step_verdict p d (Put j) ≡ (if nat_lt waiting (size p j) then QueueStarved j else Good) }
{}

/// A queue that is fed block by block is the list of places. From the empty queue on, the steps of the compression end as
/// the definitions say, by what they find in the queue alone. Where all of them are done, output bucket j is given the
/// records of its places, in order.
pub fn fed_queue_is_places()
    ensures verdict { (p : Sizes) (d : Draw) (h : List ℕ) → IsDrawn p d → writes p.b h ≡ p.b * p.b → left p d (order p.b h) ≡ None
        → (record_of : ℕ → Item) → ((x : ℕ) → is_held (record_of x) ≡ true)
        → fed_verdict record_of p d (order p.b h) [] (steps p) ≡ first_bad (map (step_verdict p d) (steps p)) }
    ensures outputs { (p : Sizes) (d : Draw) (h : List ℕ) → IsDrawn p d → writes p.b h ≡ p.b * p.b → left p d (order p.b h) ≡ None
        → (record_of : ℕ → Item) → ((x : ℕ) → is_held (record_of x) ≡ true)
        → first_bad (map (step_verdict p d) (steps p)) ≡ Good
        → fed_outputs record_of p d (order p.b h) [] (steps p) ≡ map (λ j. map record_of (output_places p d h j)) (below p.b) }
{}
