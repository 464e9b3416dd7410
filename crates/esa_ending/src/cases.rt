//! Each ending as one small shuffle has it, worked out by hand.

ghost use Rattle.std.specs.Prelude.{◌≡◌, ℕ, ◌∷◌, [], false, replicate};
ghost use Rattle.esa_ending.specs.Cases.{base_draws, seen_after, seen_at_fault, seen_in_load, stash_zero};
ghost use Rattle.esa_ending.specs.Endings.{Succeeds, ComesOut, Overflows, DeviceFails, BlockIsTampered, BatchFails};
ghost use Rattle.esa_ending.specs.Seen.{HistoryEnds};
ghost use Rattle.esa_spec.specs.Fronts.{items_in};
ghost use Rattle.esa_params.specs.declared.slot.Op.TheVariants.{Read, Write};
ghost use Rattle.esa_params.specs.declared.slot.Region.TheVariants.{Input, Mid, Tail, Output};
ghost use Rattle.esa_spec.specs.Cases.{accessed, base};
ghost use Rattle.esa_spec.specs.declared.event.Verdict.TheVariants.{StashOverflow};

/// All 22 accesses and ten turns: attempt 0 succeeds, and the third record comes out last.
fn base_succeeds()
    ensures succeeds { Succeeds base base_draws (replicate 10 0 ∷ []) (seen_after 22 10) 0 }
    ensures order { ComesOut {X = ℕ} base base_draws (replicate 10 0 ∷ []) 0 (10 ∷ 20 ∷ 30 ∷ 40 ∷ []) (10 ∷ 20 ∷ 40 ∷ 30 ∷ []) }
{}

/// Without a stash the first exchange overflows: the load, one read and three turns.
fn stash_zero_overflows()
    ensures { Overflows stash_zero base_draws (replicate 3 0 ∷ []) (seen_after 3 3) (StashOverflow 0 ∷ []) }
{}

/// Access 7 is the write of the first chunk of bucket 1, in the ninth turn.
fn device_fails_at_seven()
    ensures fails { DeviceFails base base_draws (replicate 10 0 ∷ []) (seen_at_fault 7 9) 4 }
    ensures turns { HistoryEnds base (replicate 9 0 ∷ []) (replicate 10 0 ∷ []) (accessed Write Mid 0 2 177 4) }
{}

/// Access 2 is the last write of the load. No turn is stored then.
fn device_fails_in_load()
    ensures turns { HistoryEnds base [] (replicate 10 0 ∷ []) (accessed Write Input 0 1 392 1) }
    ensures not_all { HistoryEnds base (replicate 10 0 ∷ []) (replicate 10 0 ∷ []) (accessed Write Input 0 1 392 1) → ⊥ }
{}

/// Access 11 is the first read of the compression. Its block has one record and no dummy; the tail of target 1 has
/// none.
fn flip_at_eleven()
    ensures tampered { BlockIsTampered base base_draws (replicate 10 0 ∷ []) (seen_after 11 10) (λ slot attempt count. false) 2 }
    ensures turns { HistoryEnds base (replicate 10 0 ∷ []) (replicate 10 0 ∷ []) (accessed Read Mid 0 0 177 2) }
    ensures chunk { items_in base (base_draws 0) (0 ∷ 1 ∷ []) (accessed Read Mid 0 0 177 2) ≡ 1 }
    ensures empty_tail { items_in base (base_draws 0) (0 ∷ 1 ∷ []) (accessed Read Tail 0 1 177 7) ≡ 0 }
    ensures output { items_in base (base_draws 0) (0 ∷ 1 ∷ []) (accessed Read Output 0 1 314 9) ≡ 2 }
{}

/// Bucket 0 was written, and bucket 1 couldn't be read.
fn batch_fails_in_load()
    ensures { BatchFails base (seen_in_load 1) 1 }
{}

#[test]
fn worked_endings() {
    base_succeeds();
    stash_zero_overflows();
    device_fails_at_seven();
    device_fails_in_load();
    flip_at_eleven();
    batch_fails_in_load();
}
