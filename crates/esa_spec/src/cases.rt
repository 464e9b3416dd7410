//! Small shuffles, worked out by hand, as the definitions compute them.

ghost use Rattle.std.specs.Prelude.{◌≡◌, ◌+◌, ◌^◌, [], ◌∷◌, length, replicate, take, slice_range, map};
ghost use Rattle.esa_params.specs.Sizes.{size, below};
ghost use Rattle.esa_params.specs.Slots.{length_at};
ghost use Rattle.esa_spec.specs.Cases.{base, base_targets, base_trace, no_stash, draw_of, ordered_draw, two_draws, completed_from_none, nonce};
ghost use Rattle.esa_spec.specs.Completion.{full};
ghost use Rattle.esa_spec.specs.Files.{trace_bytes, turns_bytes};
ghost use Rattle.esa_spec.specs.Histories.{lists, latest};
ghost use Rattle.esa_spec.specs.Lines.{chunk, queued, stashed};
ghost use Rattle.esa_spec.specs.Places.{output_places, places, window};
ghost use Rattle.esa_spec.specs.Traces.{trace};
ghost use Rattle.esa_spec.specs.Turns.{events, order};
ghost use Rattle.esa_spec.specs.Verdicts.{verdict};
ghost use Rattle.esa_params.specs.declared.form.Form.TheVariants.{Two};
ghost use Rattle.esa_spec.specs.declared.event.Event.TheVariants.{Claim, Read, Exchange, Write};
ghost use Rattle.esa_spec.specs.declared.event.Verdict.TheVariants.{Good, StashOverflow, StashLeft, QueueOverflow, QueueStarved};

/// Four records in two buckets, with chunks and tails of one item. One worker makes ten turns.
fn base()
    ensures turns { completed_from_none base base_targets ≡ replicate 10 0 }
    ensures events { events 2 (replicate 10 0)
        ≡ Claim 0 ∷ Read 0 ∷ Exchange 0 ∷ Write 0 0 ∷ Write 0 1 ∷ Claim 1 ∷ Read 1 ∷ Exchange 1 ∷ Write 1 0 ∷ Write 1 1 ∷ [] }
    ensures stash_after_bucket_0 { queued base (draw_of base base_targets) (0 ∷ 1 ∷ []) 1 0 ≡ 1 ∷ [] }
    ensures stash_after_bucket_1 { queued base (draw_of base base_targets) (0 ∷ 1 ∷ []) 2 0 ≡ 3 ∷ [] }
    ensures verdict { verdict base (draw_of base base_targets) (replicate 10 0) ≡ Good }
    ensures places { places base (draw_of base base_targets) (replicate 10 0) ≡ 0 ∷ 1 ∷ 3 ∷ 2 ∷ [] }
    ensures accesses { trace base (λ _. draw_of base base_targets) (replicate 10 0 ∷ []) ≡ base_trace }
    ensures count { length base_trace ≡ 22 }
{}

/// The trace file of `base` has 427 bytes. It begins with its header, and with the write of the first block.
fn base_file()
    ensures bytes { length (trace_bytes base_trace) ≡ 427 }
    ensures header { take 9 (trace_bytes base_trace) ≡ 0x45 ∷ 0x53 ∷ 0x41 ∷ 0x54 ∷ 1 ∷ 0 ∷ 0 ∷ 0 ∷ 0x16 ∷ [] }
    ensures first_access { slice_range (trace_bytes base_trace) 9 28
        ≡ 1 ∷ 0 ∷ 0 ∷ 0 ∷ 0 ∷ 0 ∷ 0 ∷ 0 ∷ 0 ∷ 1 ∷ 0x88 ∷ 0 ∷ 0 ∷ 0 ∷ 0 ∷ 0 ∷ 0 ∷ 0 ∷ 0 ∷ [] }
{}

/// In form Two the blocks are longer, and the accesses before the scans are the same.
fn form_two_sizes()
    ensures lengths { map (length_at (record base { form = Two })) (below 10)
        ≡ 648 ∷ 648 ∷ 305 ∷ 305 ∷ 305 ∷ 305 ∷ 305 ∷ 305 ∷ 570 ∷ 570 ∷ [] }
    ensures count { length (trace (record base { form = Two }) (λ _. draw_of base base_targets) (replicate 10 0 ∷ [])) ≡ 22 }
{}

/// Two workers: bucket 1 is exchanged first.
fn two_workers()
    ensures count { length (trace (record base { workers = 2 }) (λ _. draw_of base base_targets) ((0 ∷ 1 ∷ 1 ∷ 1 ∷ 0 ∷ 1 ∷ 0 ∷ 1 ∷ 0 ∷ 1 ∷ 0 ∷ []) ∷ [])) ≡ 22 }
    ensures turns { full (record base { workers = 2 }) (draw_of base base_targets) (0 ∷ 1 ∷ 1 ∷ 1 ∷ [])
        ≡ 0 ∷ 1 ∷ 1 ∷ 1 ∷ 0 ∷ 1 ∷ 0 ∷ 1 ∷ 0 ∷ 1 ∷ 0 ∷ [] }
    ensures exchanges { order 2 (0 ∷ 1 ∷ 1 ∷ 1 ∷ 0 ∷ 1 ∷ 0 ∷ 1 ∷ 0 ∷ 1 ∷ 0 ∷ []) ≡ 1 ∷ 0 ∷ [] }
    ensures verdict { verdict (record base { workers = 2 }) (draw_of base base_targets) (0 ∷ 1 ∷ 1 ∷ 1 ∷ 0 ∷ 1 ∷ 0 ∷ 1 ∷ 0 ∷ 1 ∷ 0 ∷ []) ≡ Good }
    ensures places { places (record base { workers = 2 }) (draw_of base base_targets) (0 ∷ 1 ∷ 1 ∷ 1 ∷ 0 ∷ 1 ∷ 0 ∷ 1 ∷ 0 ∷ 1 ∷ 0 ∷ [])
        ≡ 0 ∷ 3 ∷ 1 ∷ 2 ∷ [] }
    ensures counts_of_bucket_1 { map (λ i. length (chunk (record base { workers = 2 }) (draw_of base base_targets) (1 ∷ 0 ∷ []) 0 i)) (below 2) ≡ 1 ∷ 1 ∷ [] }
    ensures counts_of_bucket_0 { map (λ i. length (chunk (record base { workers = 2 }) (draw_of base base_targets) (1 ∷ 0 ∷ []) 1 i)) (below 2) ≡ 1 ∷ 0 ∷ [] }
    ensures first_chunk { chunk (record base { workers = 2 }) (draw_of base base_targets) (1 ∷ 0 ∷ []) 0 0 ≡ 3 ∷ [] }
    ensures second_chunk { chunk (record base { workers = 2 }) (draw_of base base_targets) (1 ∷ 0 ∷ []) 1 0 ≡ 0 ∷ [] }
    ensures queued { queued (record base { workers = 2 }) (draw_of base base_targets) (1 ∷ 0 ∷ []) 2 0 ≡ 1 ∷ [] }
    ensures history { latest 2 (2 ∷ 0 ∷ 1 ∷ 1 ∷ 1 ∷ 0 ∷ 1 ∷ 0 ∷ 1 ∷ 0 ∷ 1 ∷ 0 ∷ []) ≡ 0 ∷ 1 ∷ 1 ∷ 1 ∷ 0 ∷ 1 ∷ 0 ∷ 1 ∷ 0 ∷ 1 ∷ 0 ∷ [] }
    ensures file { turns_bytes ((0 ∷ 1 ∷ []) ∷ (1 ∷ []) ∷ []) ≡ 48 ∷ 10 ∷ 49 ∷ 10 ∷ 110 ∷ 101 ∷ 120 ∷ 116 ∷ 10 ∷ 49 ∷ 10 ∷ [] }
{}

/// The order of target 0 is 2, 0, 1, 3: the third entry of its import comes first. Its import is 0, 1, 3 and a pad, and
/// that of target 1 is two pads, 2 and a pad.
fn ordered()
    ensures verdict { verdict no_stash (ordered_draw no_stash base_targets (2 ∷ 0 ∷ 1 ∷ 3 ∷ [])) (replicate 10 0) ≡ Good }
    ensures places { places no_stash (ordered_draw no_stash base_targets (2 ∷ 0 ∷ 1 ∷ 3 ∷ [])) (replicate 10 0) ≡ 3 ∷ 0 ∷ 1 ∷ 2 ∷ [] }
    ensures first_output { output_places no_stash (ordered_draw no_stash base_targets (2 ∷ 0 ∷ 1 ∷ 3 ∷ [])) (replicate 10 0) 0 ≡ 3 ∷ 0 ∷ [] }
    ensures as_it_stands { places no_stash (ordered_draw no_stash base_targets (0 ∷ 1 ∷ 2 ∷ 3 ∷ [])) (replicate 10 0) ≡ 0 ∷ 1 ∷ 3 ∷ 2 ∷ [] }
    ensures accesses { trace no_stash (λ _. ordered_draw no_stash base_targets (2 ∷ 0 ∷ 1 ∷ 3 ∷ [])) (replicate 10 0 ∷ [])
        ≡ trace no_stash (λ _. draw_of no_stash base_targets) (replicate 10 0 ∷ []) }
{}

/// The window is one bucket wide, and a queue of three is enough: output bucket 0 is written before intermediate bucket
/// 1 is imported. With a window of two buckets the queue would have to hold all four.
fn narrow_window()
    ensures verdict { verdict (record no_stash { w = 1; q = 3 }) (draw_of no_stash base_targets) (replicate 10 0) ≡ Good }
    ensures wide { verdict (record no_stash { q = 3 }) (draw_of no_stash base_targets) (replicate 10 0) ≡ QueueOverflow 1 }
    ensures places { places (record no_stash { w = 1; q = 3 }) (draw_of no_stash base_targets) (replicate 10 0) ≡ 0 ∷ 1 ∷ 3 ∷ 2 ∷ [] }
    ensures held { window (record no_stash { w = 1; q = 3 }) (draw_of no_stash base_targets) (0 ∷ 1 ∷ []) 1 1 ≡ 3 ∷ [] }
    ensures accesses { map nonce (slice_range (trace (record no_stash { w = 1; q = 3 }) (λ _. draw_of no_stash base_targets) (replicate 10 0 ∷ [])) 10 18)
        ≡ 2 ∷ 4 ∷ 6 ∷ 8 ∷ 3 ∷ 5 ∷ 7 ∷ 9 ∷ [] }
    ensures count { length (trace (record no_stash { w = 1; q = 3 }) (λ _. draw_of no_stash base_targets) (replicate 10 0 ∷ [])) ≡ 22 }
{}

/// A history of two attempts of two workers, and one that is still in its second attempt.
fn two_attempts()
    ensures ended { lists 2 (2 ∷ 0 ∷ 1 ∷ 2 ∷ 1 ∷ 2 ∷ []) ≡ (0 ∷ 1 ∷ []) ∷ (1 ∷ []) ∷ [] }
    ensures begun { lists 2 (2 ∷ 0 ∷ 1 ∷ 2 ∷ 1 ∷ []) ≡ (0 ∷ 1 ∷ []) ∷ [] }
    ensures latest { latest 2 (2 ∷ 0 ∷ 1 ∷ 2 ∷ 1 ∷ []) ≡ 1 ∷ [] }
    ensures failed_load { lists 2 (2 ∷ []) ≡ [] }
{}

/// The stash holds nothing: the exchange of bucket 0 overflows.
fn stash_zero()
    ensures turns { completed_from_none (record base { s = 0 }) base_targets ≡ replicate 3 0 }
    ensures verdict { verdict (record base { s = 0 }) (draw_of base base_targets) (replicate 3 0) ≡ StashOverflow 0 }
    ensures count { length (trace (record base { s = 0 }) (λ _. draw_of base base_targets) (replicate 3 0 ∷ [])) ≡ 3 }
{}

/// The stash is exactly full, twice.
fn stash_exactly_full()
    ensures turns { completed_from_none (record base { s = 1 }) base_targets ≡ replicate 10 0 }
    ensures full_at_first { stashed (record base { s = 1 }) (draw_of base base_targets) (0 ∷ 1 ∷ []) 1 ≡ 1 }
    ensures full_again { stashed (record base { s = 1 }) (draw_of base base_targets) (0 ∷ 1 ∷ []) 2 ≡ 1 }
    ensures verdict { verdict (record base { s = 1 }) (draw_of base base_targets) (replicate 10 0) ≡ Good }
    ensures places { places (record base { s = 1 }) (draw_of base base_targets) (replicate 10 0) ≡ 0 ∷ 1 ∷ 3 ∷ 2 ∷ [] }
    ensures accesses { trace (record base { s = 1 }) (λ _. draw_of base base_targets) (replicate 10 0 ∷ []) ≡ base_trace }
{}

/// A tail holds nothing, and the stash still holds place 3.
fn tail_zero()
    ensures turns { completed_from_none (record base { k = 0 }) base_targets ≡ replicate 10 0 }
    ensures verdict { verdict (record base { k = 0 }) (draw_of (record base { k = 0 }) base_targets) (replicate 10 0) ≡ StashLeft 0 }
    ensures count { length (trace (record base { k = 0 }) (λ _. draw_of (record base { k = 0 }) base_targets) (replicate 10 0 ∷ [])) ≡ 8 }
{}

/// The window is one bucket wide, and intermediate bucket 0 is empty.
fn queue_starved()
    ensures turns { completed_from_none (record no_stash { w = 1 }) (replicate 4 1) ≡ replicate 10 0 }
    ensures verdict { verdict (record no_stash { w = 1 }) (draw_of no_stash (replicate 4 1)) (replicate 10 0) ≡ QueueStarved 0 }
    ensures count { length (trace (record no_stash { w = 1 }) (λ _. draw_of no_stash (replicate 4 1)) (replicate 10 0 ∷ [])) ≡ 13 }
{}

/// All places are in intermediate bucket 0, which is one more than the queue holds.
fn queue_overflow()
    ensures turns { completed_from_none (record no_stash { w = 1; q = 3 }) (replicate 4 0) ≡ replicate 10 0 }
    ensures verdict { verdict (record no_stash { w = 1; q = 3 }) (draw_of no_stash (replicate 4 0)) (replicate 10 0) ≡ QueueOverflow 0 }
    ensures count { length (trace (record no_stash { w = 1; q = 3 }) (λ _. draw_of no_stash (replicate 4 0)) (replicate 10 0 ∷ [])) ≡ 13 }
{}

/// One record in four buckets, three of which are empty.
fn empty_buckets()
    ensures places { places (record no_stash { n = 1; b = 4; c = 1; w = 4; q = 1 }) (draw_of (record no_stash { n = 1; b = 4; c = 1; w = 4; q = 1 }) (3 ∷ [])) (replicate 28 0)
        ≡ 0 ∷ [] }
    ensures sizes { map (size (record no_stash { n = 1; b = 4; c = 1; w = 4; q = 1 })) (below 4) ≡ 1 ∷ 0 ∷ 0 ∷ 0 ∷ [] }
    ensures lengths { map (length_at (record no_stash { n = 1; b = 4; c = 1; w = 4; q = 1 })) (below 4) ≡ 216 ∷ 40 ∷ 40 ∷ 40 ∷ [] }
    ensures turns { completed_from_none (record no_stash { n = 1; b = 4; c = 1; w = 4; q = 1 }) (3 ∷ []) ≡ replicate 28 0 }
    ensures verdict { verdict (record no_stash { n = 1; b = 4; c = 1; w = 4; q = 1 }) (draw_of (record no_stash { n = 1; b = 4; c = 1; w = 4; q = 1 }) (3 ∷ [])) (replicate 28 0)
        ≡ Good }
    ensures count { length (trace (record no_stash { n = 1; b = 4; c = 1; w = 4; q = 1 }) (λ _. draw_of (record no_stash { n = 1; b = 4; c = 1; w = 4; q = 1 }) (3 ∷ [])) (replicate 28 0 ∷ []))
        ≡ 60 }
{}

/// Three records with one target each time.
fn repeated_envelope()
    ensures turns { completed_from_none (record no_stash { n = 3; q = 3 }) (replicate 3 0) ≡ replicate 10 0 }
    ensures verdict { verdict (record no_stash { n = 3; q = 3 }) (draw_of (record no_stash { n = 3; q = 3 }) (replicate 3 0)) (replicate 10 0) ≡ Good }
    ensures places { places (record no_stash { n = 3; q = 3 }) (draw_of (record no_stash { n = 3; q = 3 }) (replicate 3 0)) (replicate 10 0) ≡ 0 ∷ 1 ∷ 2 ∷ [] }
    ensures count { length (trace (record no_stash { n = 3; q = 3 }) (λ _. draw_of (record no_stash { n = 3; q = 3 }) (replicate 3 0)) (replicate 10 0 ∷ [])) ≡ 22 }
{}

/// The first attempt overflows the stash, and the second one, with other targets, succeeds. The chunks of the second
/// attempt have nonces of their own.
fn second_attempt()
    ensures first_turns { completed_from_none (record base { s = 0; attempts = 2 }) base_targets ≡ replicate 3 0 }
    ensures first_verdict { verdict (record base { s = 0; attempts = 2 }) (draw_of base base_targets) (replicate 3 0) ≡ StashOverflow 0 }
    ensures second_turns { completed_from_none (record base { s = 0; attempts = 2 }) (0 ∷ 1 ∷ 0 ∷ 1 ∷ []) ≡ replicate 10 0 }
    ensures second_verdict { verdict (record base { s = 0; attempts = 2 }) (draw_of base (0 ∷ 1 ∷ 0 ∷ 1 ∷ [])) (replicate 10 0) ≡ Good }
    ensures places { places (record base { s = 0; attempts = 2 }) (draw_of base (0 ∷ 1 ∷ 0 ∷ 1 ∷ [])) (replicate 10 0) ≡ 0 ∷ 2 ∷ 1 ∷ 3 ∷ [] }
    ensures count { length (trace (record base { s = 0; attempts = 2 }) (two_draws base base_targets (0 ∷ 1 ∷ 0 ∷ 1 ∷ [])) (replicate 3 0 ∷ replicate 10 0 ∷ [])) ≡ 23 }
    ensures chunk_nonces { map nonce (slice_range (trace (record base { s = 0; attempts = 2 }) (two_draws base base_targets (0 ∷ 1 ∷ 0 ∷ 1 ∷ [])) (replicate 3 0 ∷ replicate 10 0 ∷ [])) 3 9)
        ≡ 0 ∷ (2 ^ 32 + 2) ∷ (2 ^ 32 + 3) ∷ 1 ∷ (2 ^ 32 + 4) ∷ (2 ^ 32 + 5) ∷ [] }
{}

#[test]
fn worked_cases() {
    base();
    base_file();
    form_two_sizes();
    two_workers();
    ordered();
    narrow_window();
    two_attempts();
    stash_zero();
    stash_exactly_full();
    tail_zero();
    queue_starved();
    queue_overflow();
    empty_buckets();
    repeated_envelope();
    second_attempt();
}
