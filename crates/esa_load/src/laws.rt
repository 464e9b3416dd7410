//! What a load gives to an attempt.

ghost use Rattle.std.specs.Prelude.{ℕ, List, ◌++◌};
ghost use Rattle.esa_device.specs.Logs.{Carried, IsFaithful};
ghost use Rattle.esa_envelope.specs.declared.keys.Keys.{Keys};
ghost use Rattle.esa_floor.specs.Keeping.{IsInput};
ghost use Rattle.esa_floor.specs.Private.{item_opened};
ghost use Rattle.esa_params.specs.Form.{envelope_length};
ghost use Rattle.esa_params.specs.Sizes.{Sizes};
ghost use Rattle.esa_load.specs.Loads.{written_blocks};

/// A log that ends with the blocks of a batch has it as its input, where it is faithful: the record of each place is what
/// the envelope of the place opened to, among all that the batch gave.
pub fn loaded_batches_are_input()
    ensures { (p : Sizes) (outer run : Keys) (given : List ℕ) (log : List Carried) → IsFaithful p (log ++ written_blocks p run given p.b)
        → IsInput p outer run (item_opened outer (envelope_length p.form) given) (log ++ written_blocks p run given p.b) }
{}
