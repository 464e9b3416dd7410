//! What a batch doesn't tell.

ghost use Rattle.std.specs.Prelude.{◌≡◌, ℕ, List};
ghost use Rattle.esa_lists.specs.Tally.{times};
ghost use Rattle.esa_params.specs.declared.form.Form.{Form};
ghost use Rattle.esa_batcher.specs.Batched.{batch_bytes};
ghost use Rattle.esa_batcher.specs.Finishing.{batch_of, envelopes_of};
ghost use Rattle.esa_batcher.specs.Rising.{by_bytes};

/// Lines with the same envelopes, each as often, give the same file, whatever their senders and moments and
/// whatever their order.
pub fn same_envelopes_same_file()
    ensures { (form : Form) (epoch : ℕ) (lines others : List (List ℕ))
        → ((envelope : List ℕ) → times by_bytes envelope (envelopes_of form lines) ≡ times by_bytes envelope (envelopes_of form others))
        → batch_bytes (batch_of form epoch (envelopes_of form lines)) ≡ batch_bytes (batch_of form epoch (envelopes_of form others)) }
{}
