//! The database of a batch that was shuffled.

ghost use Rattle.std.specs.Prelude.{◌≡◌, ◌≤◌, ℕ, List};
ghost use Rattle.esa_analyser.specs.Opened.{database_of};
ghost use Rattle.esa_crowds.specs.Kept.{forward};
ghost use Rattle.esa_ending.specs.Endings.{Succeeds, ComesOut};
ghost use Rattle.esa_ending.specs.Seen.{Seen};
ghost use Rattle.esa_envelope.specs.declared.keys.Keys.{Keys};
ghost use Rattle.esa_params.specs.Sizes.{Sizes};
ghost use Rattle.esa_report.specs.declared.item.Item.{Item};
ghost use Rattle.esa_spec.specs.Draws.{Draw, IsDrawn};

/// What is forwarded of a shuffled batch has the database of what would be forwarded of the batch by place, whatever was
/// drawn and whoever took the turns.
pub fn shuffled_batch_has_its_database()
    ensures { (p : Sizes) (ds : ℕ → Draw) (hs : List (List ℕ)) (seen : Seen) (a : ℕ) (records out : List Item)
        → 1 ≤ p.b → IsDrawn p (ds a) → Succeeds p ds hs seen a → ComesOut p ds hs a records out
        → (inner : Keys) (key drops : List ℕ) (t : ℕ)
        → database_of inner (forward p.form key drops t out) ≡ database_of inner (forward p.form key drops t records) }
{}
