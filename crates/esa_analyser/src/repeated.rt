//! Sort keys with how often each was reported.

ghost use Rattle.std.specs.Prelude.{◌≡◌, ◌+◌, ◌<◌, ◌≤◌, ◌^◌, ◌∷◌, List, ℕ, All, length, drop, take, slice_index_or, vec_capacity};
ghost use Rattle.std.specs.Ordering.{nat_cmp};
ghost use Rattle.std.specs.Cmp.Lexicographic.{slice_cmp};
ghost use Rattle.esa_lists.specs.Tally.{runs};
ghost use Rattle.esa_analyser.specs.SortKey.{key_value, IsSortKey};
ghost use Rattle.esa_analyser.specs.Repeated.{all_keys, weighed, IsRepeated};
ghost use Rattle.esa_analyser.specs.declared.repeated.Repeated.{Repeated};

use esa_bytes::u64_at;

/// How many places a hint can name.
pub(crate) const SLOTS: usize = 4096;

/// An odd number that spreads bits upwards in what it multiplies.
const SPREAD: u64 = 0x9e37_79b9_7f4a_7c15;

/// A sort key, and how many reports of it are counted here. Several can have one key.
#[derive(Clone, Copy, PartialEq, Eq, PartialOrd, Ord)]
pub(crate) struct Repeated<const P: usize> {
    pub(crate) key: [u8; P],
    pub(crate) times: u32,
}

/// The slot of a key's hint. Other keys can have the same.
fn slot_of(key: &[u8]) -> usize
    ensures { result < 4096 }
{
    let mut mixed = 0u64;
    for word in 0..key.len() / 8 {
        let spread = (mixed ^ u64_at(key, 8 * word)).wrapping_mul(SPREAD);
        mixed = spread ^ (spread >> 32);
    }
    mixed as usize % SLOTS
}

/// Counts one more report of a key: where the hint says that the key stands, or else at the end.
pub(crate) fn add_key<const P: usize>(
    list: &mut Vec<Repeated<P>>,
    hints: &mut [u32; 4096],
    key: [u8; P],
)
    requires is { IsSortKey P key }
    requires each { All IsRepeated list.old.items }
    requires few { weighed (λ _. 1) list.old.items + 1 < 2 ^ 32 }
    requires short { length list.old.items < 2 ^ 32 }
    requires room { length list.old.items < vec_capacity list.old }
    ensures counted { (f : List ℕ → ℕ) → weighed f list.new.items ≡ weighed f list.old.items + f (key_value key.entry) }
    ensures each { All IsRepeated list.new.items }
    ensures short { length list.new.items ≤ length list.old.items + 1 }
    ensures room { vec_capacity list.new ≡ vec_capacity list.old }
{
    let slot = slot_of(&key);
    let place = hints[slot] as usize;
    if place < list.len() && list[place].key == key {
        list[place].times += 1;
        return;
    }
    hints[slot] = list.len() as u32;
    list.push_reserved(Repeated { key, times: 1 });
}

/// How many at the front have the key of the first.
pub(crate) fn run_length<const P: usize>(list: &[Repeated<P>]) -> usize
    requires some { 0 < length list.now }
    requires each { All IsRepeated list.now }
    ensures some { 0 < result }
    ensures inside { result ≤ length list.now }
    ensures run { (first : Repeated P) → runs (slice_cmp nat_cmp) (all_keys list.now)
        ≡ ((slice_index_or list.now 0 first).key, length (all_keys (take result list.now))) ∷ runs (slice_cmp nat_cmp) (all_keys (drop result list.now)) }
{
    let mut equal = 1;
    while equal < list.len() && list[equal].key == list[0].key {
        equal += 1;
    }
    equal
}

/// How many reports are counted.
pub(crate) fn reports<const P: usize>(list: &[Repeated<P>]) -> u32
    requires { length (all_keys list.now) < 2 ^ 32 }
    ensures { result ≡ length (all_keys list.now) }
{
    let mut reports = 0;
    for repeated in list {
        reports += repeated.times;
    }
    reports
}
