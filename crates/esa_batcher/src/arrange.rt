//! Sorting records by short keys, so that each record is moved once.

ghost use Rattle.std.specs.Prelude.{◌≡◌, ◌<◌, ◌≤◌, ◌^◌, length, vec_capacity, vec_len};
ghost use Rattle.std.specs.List.Sorted.{IsPermutation, IsSorted};
ghost use Rattle.esa_batcher.specs.Rising.{by_bytes};
ghost use Rattle.esa_batcher.specs.Arranging.{ArePlaces};

use esa_bytes::u64_at;

/// The first eight bytes of a record as a number, and the place where the record stands.
#[derive(Clone, Copy, PartialEq, Eq, PartialOrd, Ord)]
pub(crate) struct Key {
    front: u64,
    place: u32,
}

/// Replaces the keys by those of the records.
fn put_keys<const P: usize>(records: &[[u8; P]], keys: &mut Vec<Key>)
    requires long { 8 ≤ P }
    requires few { length records.now < 2 ^ 32 }
    requires room { length records.now ≤ vec_capacity keys.old }
    ensures number { vec_len keys.new ≡ length records.now }
    ensures places { ArePlaces (length records.now) keys.new.items }
{
    keys.clear();
    for place in 0..records.len() {
        keys.push_reserved(Key {
            front: u64_at(&records[place], 0),
            place: place as u32,
        });
    }
}

/// Moves the records of the cycle that begins at `start`: each to the place of the key that names it. Those keys then
/// name their own places.
fn arrange_cycle<const P: usize>(records: &mut [[u8; P]], keys: &mut [Key], start: usize)
    requires number { length keys.old ≡ length records.old }
    requires few { length records.old < 2 ^ 32 }
    requires inside { start < length records.old }
    requires places { ArePlaces (length records.old) keys.old }
    ensures same { IsPermutation records.old records.new }
    ensures number { length keys.new ≡ length keys.old }
    ensures places { ArePlaces (length records.old) keys.new }
{
    let mut at = start;
    for _ in start..records.len() {
        let from = keys[at].place as usize;
        keys[at].place = at as u32;
        if from == start {
            return;
        }
        records.swap(at, from);
        at = from;
    }
}

/// Moves each record to the place of the key that names it.
fn arrange<const P: usize>(records: &mut [[u8; P]], keys: &mut [Key])
    requires number { length keys.old ≡ length records.old }
    requires few { length records.old < 2 ^ 32 }
    requires places { ArePlaces (length records.old) keys.old }
    ensures { IsPermutation records.old records.new }
{
    for start in 0..records.len() {
        arrange_cycle(records, keys, start);
    }
}

/// Puts records into rising order, in the room of the keys.
///
/// The keys are sorted in place of the records, which then move once. The last call sees to it that records with the
/// same front rise as well; where none have, it looks at each record once and moves none.
pub(crate) fn sort_by_keys<const P: usize>(records: &mut [[u8; P]], keys: &mut Vec<Key>)
    requires long { 8 ≤ P }
    requires few { length records.old < 2 ^ 32 }
    requires room { length records.old ≤ vec_capacity keys.old }
    ensures same { IsPermutation records.old records.new }
    ensures sorted { IsSorted by_bytes records.new }
{
    put_keys(records, keys);
    keys.sort_unstable();
    arrange(records, keys);
    records.sort_unstable();
}
