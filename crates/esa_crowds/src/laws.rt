//! Laws over forwarded lists: each is what a function with an empty body ensures.
//!
//! The functions do nothing when they run. They are there so that each law is proved where a contract names it.

ghost use Rattle.std.specs.Prelude.{◌≡◌, ℕ, List};
ghost use Rattle.std.specs.List.Sorted.{IsPermutation};
ghost use Rattle.esa_analyser.specs.Opened.{database_of};
ghost use Rattle.esa_crowds.specs.Kept.{drops_in, forward, sent_from};
ghost use Rattle.esa_crowds.specs.Entries.{entries};
ghost use Rattle.esa_crowds.specs.Rows.{kept_at};
ghost use Rattle.esa_envelope.specs.declared.keys.Keys.{Keys};
ghost use Rattle.esa_params.specs.declared.form.Form.{Form};
ghost use Rattle.esa_report.specs.declared.item.Item.{Item};

/// What is forwarded of a list in another order is the same in another order, so it has the same database. The
/// positions are those of each list: entries that tie but for them have equal inner envelopes.
pub fn database_ignores_order()
    ensures forwarded { (form : Form) (key drops : List ℕ) (t : ℕ) (items others : List Item) → IsPermutation items others
        → IsPermutation (forward form key drops t items) (forward form key drops t others) }
    ensures database { (inner : Keys) (form : Form) (key drops : List ℕ) (t : ℕ) (items others : List Item) → IsPermutation items others
        → database_of inner (forward form key drops t items) ≡ database_of inner (forward form key drops t others) }
{}

/// A second look at a list that sends the inner envelopes at the kept positions sends what is forwarded.
pub fn kept_positions_are_forwarded()
    ensures { (form : Form) (key drops : List ℕ) (t : ℕ) (items : List Item)
        → sent_from form (kept_at (drops_in key drops) t (entries form key items)) 0 items ≡ forward form key drops t items }
{}
