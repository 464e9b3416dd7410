//! The window: a queue of items that runs ahead of the output.

ghost use Rattle.std.specs.Prelude.{◌≡◌, ◌+◌, ◌≤◌, ◌<◌, ◌↔◌, [], ◌++◌, All, IsPermutation, IsTrue, length, take, drop, Some, slice_get, option_to_list, IfOk, IfErr, IsOk, OnOk, OnErr};
ghost use Rattle.circular_buffer.specs.Buffer.{buffer};
ghost use Rattle.esa_params.specs.Sizes.{below};
ghost use Rattle.esa_compress.specs.Held.{is_held, kept, held_in, held_count};

use circular_buffer::HeapCircularBuffer;
use esa_report::{Item, Kind};
use std::alloc::{AllocError, Global};
use std::marker::Model;

/// The window would hold too many items.
#[derive(Clone, Copy, PartialEq, Eq, Debug)]
pub struct Full {
    /// How many items it holds.
    pub held: u64,
    /// How many items, without the dummies, were to come in.
    pub more: u64,
}

/// The window holds fewer items than are asked for.
#[derive(Clone, Copy, PartialEq, Eq, Debug)]
pub struct Starved {
    /// How many items it holds.
    pub held: u64,
}

/// A queue of items, first in first out, of no more than a fixed number.
///
/// Only `make` takes memory.
#[derive(Drop)]
pub struct Window {
    queue: HeapCircularBuffer<Item>,
}

// Clauses see the items, and how many there may be.
impl Model for Window {
    ghost use Rattle.circular_buffer.specs.Buffer.{Buffer};
    ghost use Rattle.esa_report.specs.declared.item.Item.{Item};

    ghost Value = { Buffer Item };

    ghost view = { λ w. w.queue };
}

impl Window {
    /// An empty window for at most so many items.
    pub fn make(alloc: Global, most: u32) -> Result<Self, AllocError>
        ensures { IfOk result (λ w. w ≡ buffer [] most) }
    {
        let queue = HeapCircularBuffer::with_capacity(alloc, most as usize)?;
        Ok(Window { queue })
    }

    /// Moves items behind the queue, arranged by an order and without the dummies: one after another, the items whose
    /// indexes the order has.
    ///
    /// `Full` comes exactly where the queue and these items together are more than there may be, and then all is as
    /// before.
    #[tactic(auto, using(crate::proofs::HeldLaws::order_in, crate::proofs::HeldLaws::length_held))]
    pub fn import(&mut self, items: &[Item], order: &[u32]) -> Result<(), Full>
        requires each_once { IsPermutation (below (length items.now)) order.now }
        ensures fits { IsOk result ↔ (length self.old.items + held_count items.now ≤ self.old.capacity) }
        ensures moved { OnOk result (self.new ≡ buffer (self.old.items ++ held_in items.now order.now) self.old.capacity) }
        ensures full { IfErr result (λ full. (full.held ≡ length self.old.items) × (full.more ≡ held_count items.now)) }
        ensures unchanged { OnErr result (self.new ≡ self.old) }
    {
        let held = self.queue.len();
        let more = count_held(items);
        if more > self.queue.capacity() - held {
            return Err(Full {
                held: held as u64,
                more: more as u64,
            });
        }
        self.enter_all(items, order);
        Ok(())
    }

    /// Moves the front of the queue to `out`.
    ///
    /// `Starved` comes exactly where the queue has fewer items than `out` has places, and then all is as before.
    pub fn take(&mut self, out: &mut [Item]) -> Result<(), Starved>
        ensures enough { IsOk result ↔ (length out.old ≤ length self.old.items) }
        ensures taken { OnOk result (out.new ≡ take (length out.old) self.old.items) }
        ensures left { OnOk result (self.new ≡ buffer (drop (length out.old) self.old.items) self.old.capacity) }
        ensures starved { IfErr result (λ starved. starved.held ≡ length self.old.items) }
        ensures unchanged { OnErr result (self.new ≡ self.old) }
        ensures out_unchanged { OnErr result (out.new ≡ out.old) }
    {
        let held = self.queue.len();
        if held < out.len() {
            return Err(Starved { held: held as u64 });
        }
        self.queue.read_into(out);
        Ok(())
    }

    /// Leaves the window without items.
    pub fn clear(&mut self)
        ensures { self.new ≡ buffer [] self.old.capacity }
    {
        self.queue.clear();
    }

    /// How many items the window holds.
    pub fn len(&self) -> usize
        ensures { result ≡ length self.now.items }
    {
        self.queue.len()
    }

    /// Moves items behind the queue, which has room for them.
    fn enter_all(&mut self, items: &[Item], order: &[u32])
        requires in_range { All (λ index. index < length items.now) order.now }
        requires room { length self.old.items + length (held_in items.now order.now) ≤ self.old.capacity }
        ensures { self.new ≡ buffer (self.old.items ++ held_in items.now order.now) self.old.capacity }
    {
        for index in order {
            self.enter(named(items, *index));
        }
    }

    /// Moves an item behind the queue, unless it is a dummy.
    fn enter(&mut self, item: &Item)
        requires room { IsTrue (is_held item.now) → length self.old.items < self.old.capacity }
        ensures { self.new ≡ buffer (self.old.items ++ option_to_list (kept item.now)) self.old.capacity }
    {
        if is_held(item) {
            self.queue.push_back(*item);
        }
    }
}

/// The item that an index of an order names.
fn named(items: &[Item], index: u32) -> &Item
    requires { index < length items.now }
    ensures { slice_get items.now index ≡ Some result.now }
{
    &items[index as usize]
}

/// Whether the item is no dummy.
fn is_held(item: &Item) -> bool
    ensures { result ≡ is_held item.now }
{
    match item.kind {
        Kind::Dummy => false,
        Kind::Real | Kind::Malformed => true,
    }
}

/// How many items are no dummies.
fn count_held(items: &[Item]) -> usize
    ensures { result ≡ held_count items.now }
{
    items.iter().filter(|item| is_held(item)).count()
}
