//! The stash: a queue of items for each target, in one arena.

ghost use Rattle.std.specs.Prelude.{ℕ, ◌≡◌, ◌≢◌, ◌*◌, ◌≤◌, ◌<◌, ◌↔◌, List, [], ◌∷◌, ◌++◌, All, length, IfOk, IfErr, IsOk, OnOk, OnErr};
ghost use Rattle.esa_stash.specs.Stash.{Handed, contents, empty_stash, without, queue_at, padded, chunks as chunks_of, counts as counts_of, exchanged, padded_chunk, total};
ghost use Rattle.esa_stash.specs.Dealing.{chunk_at};
ghost use Rattle.esa_stash.specs.Since.{IsSince, HasTail, tail, tail_length, last_chunks, last_counts, total_backlog};

use crate::cells::Cells;
use crate::{dealing, totals};
use esa_report::Item;
use std::alloc::{AllocError, Global};
use std::marker::Model;

/// An exchange would leave more items than the stash holds.
#[derive(Clone, Copy, PartialEq, Eq, Debug)]
pub struct Overflow {
    /// How many items it would leave.
    pub total: u64,
}

/// A queue is longer than the room that it was to be moved to.
#[derive(Clone, Copy, PartialEq, Eq, Debug)]
pub struct Left {
    /// How many items the queue holds.
    pub held: u64,
}

/// The stash of a shuffle's distribution: a queue of items for each target, first in first out, all of them together
/// no longer than a fixed number of items.
///
/// Only `make` takes memory. An exchange takes time for its own items and chunks, whatever is queued.
#[derive(Drop)]
pub struct Stash {
    cells: Cells,
    targets: u32,
    chunk: u32,
    // How many items come for each target, in the exchange at work.
    arriving: Vec<u64>,
}

// Clauses see the items of a chunk, and the arena: the cells of each queue, with their items, and the free cells.
impl Model for Stash {
    ghost use Rattle.std.specs.Prelude.{length, ◌≡◌};
    ghost use Rattle.esa_stash.specs.Stash.{Stashed};

    ghost Value = { Stashed };

    ghost view = { λ s. record { c = s.chunk; cells = s.cells } };

    ghost invariant = { λ s. (length s.cells.chains ≡ s.targets) × (length s.arriving.items ≡ s.targets) };
}

impl Stash {
    /// An empty stash for `b` targets, chunks of `c` items and at most `s` queued items.
    pub fn make(alloc: Global, b: u32, c: u32, s: u32) -> Result<Self, AllocError>
        ensures empty { IfOk result (λ stash. contents stash ≡ empty_stash b c s) }
        ensures since { IfOk result (λ stash. IsSince [] (contents stash)) }
    {
        let cells = Cells::make(alloc, b, s)?;
        let arriving = vec![in alloc; 0; b as usize]?;
        Ok(Stash {
            cells,
            targets: b,
            chunk: c,
            arriving,
        })
    }

    /// Exchanges a bucket's items, each with its target, for a chunk of `c` items for each target.
    ///
    /// A chunk is filled from its target's queue, and then from the items in order. An item that finds its chunk full
    /// goes behind the queue. The chunk of target i stands in the places from `i * c` on, with dummies at its end, and
    /// `counts` tells how many items each chunk has.
    ///
    /// `Overflow` comes exactly where the queues would hold more items than the stash does, and then all is as before.
    pub fn exchange(
        &mut self,
        targets: &[u32],
        items: &[Item],
        chunks: &mut [Item],
        counts: &mut [u32],
    ) -> Result<(), Overflow>
        requires target_each { length items.now ≡ length targets.now }
        requires below { All (λ target. target < length (contents self.old).queues) targets.now }
        requires places { length chunks.old ≡ length (contents self.old).queues * self.old.c }
        requires count_each { length counts.old ≡ length (contents self.old).queues }

        // One exchange, by the queues as they were.
        ensures fits { IsOk result ↔ (total (exchanged (contents self.old) (targets.now, items.now)) ≤ self.old.cells.room) }
        ensures queues { OnOk result (contents self.new ≡ exchanged (contents self.old) (targets.now, items.now)) }
        ensures chunks { OnOk result (chunks.new ≡ chunks_of (contents self.old) (targets.now, items.now)) }
        ensures counts { OnOk result (counts.new ≡ counts_of (contents self.old) (targets.now, items.now)) }

        // Each chunk at its place.
        ensures each { OnOk result ((i : ℕ) → i < length (contents self.old).queues → chunk_at self.old.c chunks.new i ≡ padded_chunk (contents self.old) (targets.now, items.now) i) }
        ensures overflow { IfErr result (λ e. e.total ≡ total (exchanged (contents self.old) (targets.now, items.now))) }

        // The same by all that was handed over since the stash was empty, each time with Ok and no spill between.
        ensures since { OnOk result ((all : List Handed) → IsSince all (contents self.old) → IsSince (all ++ (targets.now, items.now) ∷ []) (contents self.new)) }
        ensures chunks_since { OnOk result ((all : List Handed) → IsSince all (contents self.old) → chunks.new ≡ last_chunks (contents self.old) all (targets.now, items.now)) }
        ensures counts_since { OnOk result ((all : List Handed) → IsSince all (contents self.old) → counts.new ≡ last_counts (contents self.old) all (targets.now, items.now)) }
        ensures fits_since { (all : List Handed) → IsSince all (contents self.old) → IsOk result ↔ (total_backlog (contents self.old) all (targets.now, items.now) ≤ self.old.cells.room) }
        ensures overflow_since { IfErr result (λ e. (all : List Handed) → IsSince all (contents self.old) → e.total ≡ total_backlog (contents self.old) all (targets.now, items.now)) }

        ensures unchanged { OnErr result (self.new ≡ self.old) }
        ensures chunks_unchanged { OnErr result (chunks.new ≡ chunks.old) }
        ensures counts_unchanged { OnErr result (counts.new ≡ counts.old) }
    {
        let room = self.cells.room();
        let arriving = self.arriving.as_mut_slice();
        totals::count_targets(targets, arriving);
        let total = totals::total_after(&self.cells, self.targets, self.chunk, arriving);
        if total > u64::from(room) {
            return Err(Overflow { total });
        }
        dealing::deal(&mut self.cells, self.chunk, targets, items, chunks, counts);
        Ok(())
    }

    /// Moves a target's queue to `out`, in order, with dummies in the places behind it, and tells how many items moved.
    ///
    /// `Left` comes exactly where the queue is longer than `out`, and then all is as before.
    pub fn spill(&mut self, target: u32, out: &mut [Item]) -> Result<u32, Left>
        requires { target < length (contents self.old).queues }

        // The queue as it was.
        ensures fits { IsOk result ↔ (length (queue_at (contents self.old) target) ≤ length out.old) }
        ensures moved { OnOk result (out.new ≡ padded (length out.old) (queue_at (contents self.old) target)) }
        ensures count { IfOk result (λ count. count ≡ length (queue_at (contents self.old) target)) }
        ensures emptied { OnOk result (contents self.new ≡ without (contents self.old) target) }
        ensures left { IfErr result (λ left. left.held ≡ length (queue_at (contents self.old) target)) }

        // The same by all that was handed over since the stash was empty, each time with Ok and no spill between. It
        // holds for one target after another, since the other queues stay.
        ensures fits_since { (all : List Handed) → HasTail all (contents self.old) target → IsOk result ↔ (tail_length self.old.c all target ≤ length out.old) }
        ensures moved_since { OnOk result ((all : List Handed) → HasTail all (contents self.old) target → out.new ≡ padded (length out.old) (tail self.old.c all target)) }
        ensures count_since { IfOk result (λ count. (all : List Handed) → HasTail all (contents self.old) target → count ≡ tail_length self.old.c all target) }
        ensures left_since { IfErr result (λ left. (all : List Handed) → HasTail all (contents self.old) target → left.held ≡ tail_length self.old.c all target) }
        ensures others_since { OnOk result ((all : List Handed) → (i : ℕ) → i ≢ target → HasTail all (contents self.old) i → HasTail all (contents self.new) i) }

        ensures unchanged { OnErr result (self.new ≡ self.old) }
        ensures out_unchanged { OnErr result (out.new ≡ out.old) }
    {
        let held = self.cells.length(target);
        if held as usize > out.len() {
            return Err(Left {
                held: u64::from(held),
            });
        }
        dealing::draw(&mut self.cells, target, out);
        Ok(held)
    }

    /// Leaves all queues empty.
    pub fn clear(&mut self)
        ensures empty { contents self.new ≡ empty_stash (length (contents self.old).queues) self.old.c self.old.cells.room }
        ensures since { IsSince [] (contents self.new) }
    {
        for target in 0..self.targets {
            dealing::empty(&mut self.cells, target);
        }
    }

    /// The arena that holds the queues: chain i has queue i.
    pub fn cells(&self) -> &Cells
        ensures { result.now ≡ self.now.cells }
    {
        &self.cells
    }
}
