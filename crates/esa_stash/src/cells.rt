//! The arena: a fixed number of cells, each free or in one chain.

ghost use Rattle.std.specs.Prelude.{◌≡◌, ◌<◌, ◌↔◌, [], length, IfOk, IsTrue, IsNone, option_map, slice_get};
ghost use Rattle.std.specs.Bool.{OnTrue, OnFalse};
ghost use Rattle.esa_stash.specs.Arena.{IsShared, chain_at, empty_arena, pushed, popped};

use crate::links::Links;
use esa_report::Item;
use std::alloc::{AllocError, Global};
use std::marker::Model;

/// The list of the free cells. List `i + 1` has those of chain i.
const FREE: usize = 0;

/// An arena of a fixed number of cells: each cell is free, or stands in one of a fixed number of chains and holds an
/// item.
///
/// Only `make` takes memory.
#[derive(Drop)]
pub struct Cells {
    links: Links,
    items: Vec<Item>,
}

// Clauses see the number of cells, the free ones, and the cells of each chain in order, each with its item.
impl Model for Cells {
    ghost use Rattle.esa_stash.specs.Arena.{Arena};

    ghost Value = { Arena };

    ghost use Rattle.esa_stash.specs.Inside.{arena_of, AreCells};

    ghost view = { λ s. arena_of s.links s.items.items };

    ghost invariant = { λ s. AreCells s.links s.items.items };
}

impl Cells {
    /// So many chains, all empty, and room for so many items in all.
    pub fn make(alloc: Global, chains: u32, room: u32) -> Result<Self, AllocError>
        ensures { IfOk result (λ cells. cells ≡ empty_arena chains room) }
    {
        let links = Links::make(alloc, chains, room)?;
        let items = vec![in alloc; Item::dummy(); room as usize]?;
        Ok(Cells { links, items })
    }

    /// How many cells there are.
    pub fn room(&self) -> u32
        ensures room { result ≡ self.now.room }
        ensures shared { IsShared self.now }
    {
        self.links.room()
    }

    /// How many cells are free.
    pub fn free(&self) -> u32
        ensures free { result ≡ length self.now.free }
        ensures shared { IsShared self.now }
    {
        self.links.length(FREE)
    }

    /// How many cells a chain has.
    pub fn length(&self, chain: u32) -> u32
        requires { chain < length self.now.chains }
        ensures length { result ≡ length (chain_at self.now chain) }
        ensures shared { IsShared self.now }
    {
        self.links.length(chain as usize + 1)
    }

    /// Puts an item behind a chain, in the first free cell. False where no cell is free.
    pub fn push(&mut self, chain: u32, item: Item) -> bool
        requires { chain < length self.old.chains }
        ensures room { IsTrue result ↔ (0 < length self.old.free) }
        ensures shared { IsShared self.old }
        ensures pushed { OnTrue result (self.new ≡ pushed self.old chain item) }
        ensures full { OnFalse result (self.new ≡ self.old) }
    {
        match self.links.shift(FREE, chain as usize + 1) {
            Some(cell) => {
                self.items[cell as usize] = item;
                true
            }
            None => false,
        }
    }

    /// Takes the first item of a chain, and frees its cell.
    pub fn pop(&mut self, chain: u32) -> Option<Item>
        requires { chain < length self.old.chains }
        ensures first { result ≡ option_map (λ held. held.1) (slice_get (chain_at self.old chain) 0) }
        ensures empty { IsNone result ↔ (chain_at self.old chain ≡ []) }
        ensures shared { IsShared self.old }
        ensures rest { self.new ≡ popped self.old chain }
    {
        let cell = self.links.shift(chain as usize + 1, FREE)?;
        Some(self.items[cell as usize])
    }
}
