//! The bytes of trace files and turns files, part by part.

ghost use Rattle.std.specs.Prelude.{◌≡◌, ℕ, ◌+◌, ◌*◌, ◌<◌, ◌≤◌, List, [], ◌∷◌, ◌++◌, length, flat_map, slice_range};
ghost use Rattle.esa_params.specs.declared.slot.Access.{Access};
ghost use Rattle.esa_spec.specs.Files.{access_bytes, trace_bytes, turn_line, next_line, turns_bytes};

/// A trace file has 9 bytes and 19 for each access, and the accesses from the k-th on stand together, so that a buffer of
/// m of them holds a part of the file.
pub fn trace_in_parts()
    ensures access { (x : Access) → length (access_bytes x) ≡ 19 }
    ensures length { (xs : List Access) → length (trace_bytes xs) ≡ 9 + 19 * length xs }
    ensures part { (k m : ℕ) (xs : List Access) → k + m ≤ length xs
        → slice_range (trace_bytes xs) (9 + 19 * k) (9 + 19 * (k + m)) ≡ flat_map access_bytes (slice_range xs k (k + m)) }
{}

/// A turns file goes on with the line that begins a list, and with the turns of the list, of which each line has 3 bytes at
/// most.
pub fn turns_in_parts()
    ensures list { (h : List ℕ) (hs : List (List ℕ)) (last : List ℕ)
        → turns_bytes ((h ∷ hs) ++ last ∷ []) ≡ turns_bytes (h ∷ hs) ++ (next_line ++ flat_map turn_line last) }
    ensures line { (worker : ℕ) → worker < 16 → length (turn_line worker) ≤ 3 }
{}
