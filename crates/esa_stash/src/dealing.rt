//! The steps of an exchange, over an arena, chunks and counts.

ghost use Rattle.std.specs.Prelude.{◌≡◌, ℕ, ◌*◌, ◌≤◌, ◌<◌, ◌^◌, List, [], All, length, take, drop, sum_by, slice_index};
ghost use Rattle.esa_stash.specs.Arena.{queues_of};
ghost use Rattle.esa_stash.specs.Stash.{padded};
ghost use Rattle.esa_stash.specs.Sizes.{below};
ghost use Rattle.esa_stash.specs.Dealing.{ChangesQueue, AreDealt, queue_of, line_after, left_of, with_item};
ghost use Rattle.esa_report.specs.declared.item.Item.{Item as AnItem};

use crate::cells::Cells;
use esa_report::Item;

/// Deals out each target's queue and the new items behind it: up to `c` items of this line are the target's chunk,
/// padded and counted, and the rest is its queue.
pub fn deal(
    cells: &mut Cells,
    c: u32,
    targets: &[u32],
    items: &[Item],
    chunks: &mut [Item],
    counts: &mut [u32],
)
    requires chains { length cells.old.chains ≡ length counts.old }
    requires places { length chunks.old ≡ length counts.old * c }
    requires item_each { length items.now ≡ length targets.now }
    requires small { length counts.old < 2 ^ 32 }
    requires below { All (λ target. target < length counts.old) targets.now }
    requires room { sum_by (left_of c (line_after cells.old targets.now items.now)) (below (length counts.old)) ≤ cells.old.room }
    ensures dealt { AreDealt (length counts.old) c (line_after cells.old targets.now items.now) cells.new chunks.new counts.new }
    ensures chains { length cells.new.chains ≡ length cells.old.chains }
    ensures cells { cells.new.room ≡ cells.old.room }
{
    deal_queues(cells, c, chunks, counts);
    for (target, item) in targets.iter().zip(items) {
        deal_item(cells, c, *target, *item, chunks, counts);
    }
}

/// Deals out the queues alone.
fn deal_queues(cells: &mut Cells, c: u32, chunks: &mut [Item], counts: &mut [u32])
    requires chains { length cells.old.chains ≡ length counts.old }
    requires small { length counts.old < 2 ^ 32 }
    requires places { length chunks.old ≡ length counts.old * c }
    ensures dealt { AreDealt (length counts.old) c (queue_of cells.old) cells.new chunks.new counts.new }
    ensures chains { length cells.new.chains ≡ length cells.old.chains }
    ensures cells { cells.new.room ≡ cells.old.room }
{
    let size = c as usize;
    for target in 0..counts.len() {
        let start = target * size;
        let count = draw(cells, target as u32, &mut chunks[start..start + size]);
        counts[target] = count as u32;
    }
}

/// Deals out one more item: to its target's chunk where a place is left, and else behind the queue.
fn deal_item(
    cells: &mut Cells,
    c: u32,
    target: u32,
    item: Item,
    chunks: &mut [Item],
    counts: &mut [u32],
)
    requires chains { length cells.old.chains ≡ length counts.old }
    requires places { length chunks.old ≡ length counts.old * c }
    requires target { target < length counts.old }
    requires count { slice_index counts.old target ≤ c }
    requires room { slice_index counts.old target ≡ c → sum_by length (queues_of cells.old) < cells.old.room }
    ensures dealt { (line : ℕ → List AnItem) → AreDealt (length counts.old) c line cells.old chunks.old counts.old
        → AreDealt (length counts.old) c (with_item line target item) cells.new chunks.new counts.new }
    ensures chains { length cells.new.chains ≡ length cells.old.chains }
    ensures cells { cells.new.room ≡ cells.old.room }
{
    let taken = counts[target as usize];
    if taken < c {
        chunks[target as usize * c as usize + taken as usize] = item;
        counts[target as usize] = taken + 1;
    } else {
        let kept = cells.push(target, item);
        prove!(kept);
    }
}

/// Moves the first items of a chain to `out`, as many as there are places, and fills the places behind them with
/// dummies. Tells how many items moved.
pub fn draw(cells: &mut Cells, chain: u32, out: &mut [Item]) -> usize
    requires { chain < length cells.old.chains }
    ensures out { out.new ≡ padded (length out.old) (take (length out.old) (queue_of cells.old chain)) }
    ensures count { result ≡ length (take (length out.old) (queue_of cells.old chain)) }
    ensures queue { ChangesQueue cells.old cells.new chain (drop (length out.old) (queue_of cells.old chain)) }
{
    let count = (cells.length(chain) as usize).min(out.len());
    for place in out.iter_mut() {
        *place = cells.pop(chain).unwrap_or(Item::dummy());
    }
    count
}

/// Empties a chain.
pub fn empty(cells: &mut Cells, chain: u32)
    requires { chain < length cells.old.chains }
    ensures { ChangesQueue cells.old cells.new chain [] }
{
    let held = cells.length(chain);
    for _taken in 0..held {
        cells.pop(chain);
    }
}
