//! Sorted places, crowd by crowd.

ghost use Rattle.std.specs.Prelude.{◌≡◌, ◌≢◌, ◌+◌, ◌≤◌, ◌<◌, ℕ, List, [], false, nat_le, ◌||◌, All, length, drop, cond, slice_index, slice_index_or};
ghost use Rattle.std.specs.List.Sorted.{IsSorted, IsPermutation};
ghost use Rattle.esa_hmac.specs.Mac.{StandsFor};
ghost use Rattle.esa_params.specs.declared.form.Form.{Form};
ghost use Rattle.esa_params.specs.Sizes.{below};
ghost use Rattle.esa_crowds.specs.Kept.{drops_in};
ghost use Rattle.esa_crowds.specs.Rows.{IsPadded, RiseWithin, by_place, entries_in, kept_at, picked, row_at, stands_at};

use crate::row::{Row, code};
use esa_hmac::Mac;
use esa_job::Drops;

/// How many places at the front have rows of one crowd.
fn run_length(rows: &[Row], order: &[u32]) -> usize
    requires some { 0 < length order.now }
    requires inside { All (λ place. place < length rows.now) order.now }
    ensures some { 0 < result }
    ensures inside { result ≤ length order.now }
    ensures one_crowd { (k : ℕ) → k < result → (row_at rows.now (slice_index order.now k)).crowd ≡ (row_at rows.now (slice_index order.now 0)).crowd }
    ensures another { result < length order.now → (row_at rows.now (slice_index order.now result)).crowd ≢ (row_at rows.now (slice_index order.now 0)).crowd }
{
    let mut equal = 1;
    while equal < order.len()
        && rows[order[equal] as usize].crowd == rows[order[0] as usize].crowd
    {
        equal += 1;
    }
    equal
}

/// Marks the positions of the rows at some places.
fn mark(rows: &[Row], marks: &mut [bool], places: &[u32])
    requires inside { All (λ place. place < length rows.now) places.now }
    requires marked { (k : ℕ) → k < length rows.now → (row_at rows.now k).position < length marks.old }
    ensures marks { (form : Form) (position : ℕ) → position < length marks.old → slice_index_or marks.new position false
        ≡ (slice_index_or marks.old position false || stands_at position (picked form rows.now places.now)) }
    ensures length { length marks.new ≡ length marks.old }
{
    for place in places {
        marks[rows[*place as usize].position as usize] = true;
    }
}

/// Marks the positions of a crowd's rows, but for as many of the first as are dropped, where at least `t` are left.
fn mark_run(rows: &[Row], marks: &mut [bool], run: &[u32], dropped: u32, t: u32)
    requires inside { All (λ place. place < length rows.now) run.now }
    requires marked { (k : ℕ) → k < length rows.now → (row_at rows.now k).position < length marks.old }
    ensures marks { (form : Form) (position : ℕ) → position < length marks.old → slice_index_or marks.new position false
        ≡ (slice_index_or marks.old position false || cond (nat_le (dropped + t) (length run.now)) (stands_at position (picked form rows.now (drop dropped run.now))) false) }
    ensures length { length marks.new ≡ length marks.old }
{
    if dropped as u64 + t as u64 <= run.len() as u64 {
        mark(rows, marks, &run[dropped as usize..]);
    }
}

/// How many records of a crowd are dropped.
fn dropped_of(codes: &Mac, drops: &Drops, crowd: &[u8]) -> u32
    ensures { (key : List ℕ) → StandsFor codes.now key [] → result ≡ drops_in key drops.now crowd.now }
{
    drops.at(code(codes, crowd)[0])
}

/// Marks the positions of all rows that are kept, where no position is marked. The places are those of all rows, in the
/// order of the rows, and the positions of the rows rise.
pub(crate) fn mark_kept(
    codes: &Mac,
    drops: &Drops,
    t: u32,
    rows: &[Row],
    order: &[u32],
    marks: &mut [bool],
)
    requires permutation { IsPermutation (below (length rows.now)) order.now }
    requires sorted { IsSorted (by_place rows.now) order.now }
    requires form { (form : Form) × (All (IsPadded form) rows.now) × (RiseWithin 0 (length marks.old) (entries_in form rows.now)) }
    requires unmarked { (position : ℕ) → slice_index_or marks.old position false ≡ false }
    ensures marks { (form : Form) (key : List ℕ) (position : ℕ) → All (IsPadded form) rows.now → RiseWithin 0 (length marks.old) (entries_in form rows.now)
        → StandsFor codes.now key [] → position < length marks.old
        → slice_index_or marks.new position false ≡ kept_at (drops_in key drops.now) t (entries_in form rows.now) position }
    ensures length { length marks.new ≡ length marks.old }
{
    let mut rest = order;
    while !rest.is_empty() {
        let (run, others) = rest.split_at(run_length(rows, rest));
        let dropped = dropped_of(codes, drops, &rows[run[0] as usize].crowd);
        mark_run(rows, marks, run, dropped, t);
        rest = others;
    }
}
