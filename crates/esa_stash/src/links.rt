//! Cells by number, each in one of a fixed number of lists, by the cell after each cell.

ghost use Rattle.std.specs.Prelude.{◌≡◌, ◌≢◌, ◌+◌, ◌^◌, ◌<◌, [], ◌∷◌, length, map, replicate, vec_len, slice_get, IfNone, IfOk};
ghost use Rattle.std.specs.List.{range_with_len};
ghost use Rattle.esa_stash.specs.Ends.{linked, longer, rising_ends, no_ends};
ghost use Rattle.esa_stash.specs.Links.{IsPartition, list_at, shifted};

use std::alloc::{AllocError, Global};
use std::marker::Model;

/// The ends of a list of cells. The first and the last cell mean nothing where the list is empty.
#[derive(Clone, Copy)]
struct Ends {
    first: u32,
    last: u32,
    length: u32,
}

/// A fixed number of cells, each in exactly one of a fixed number of lists.
#[derive(Drop)]
pub struct Links {
    // The cell after each cell in its list.
    next: Vec<u32>,
    lists: Vec<Ends>,
}

// Clauses see the number of cells, and the cells of each list in order.
impl Model for Links {
    ghost use Rattle.std.specs.Prelude.{map, length};
    ghost use Rattle.esa_stash.specs.Links.{Lists};

    ghost Value = { Lists };

    ghost use Rattle.std.specs.List.{range_with_len};
    ghost use Rattle.esa_stash.specs.Ends.{cells_of, AreLinked};

    ghost view = { λ s. record {
      room = length s.next.items;
      lists = map (cells_of s.next.items) s.lists.items;
    } };

    ghost invariant = { λ s. AreLinked s.next.items s.lists.items };
}

impl Links {
    /// So many cells, all in list 0 and in rising order, and so many more lists, all empty.
    pub fn make(alloc: Global, lists: u32, cells: u32) -> Result<Self, AllocError>
        ensures lists { IfOk result (λ links. links.lists ≡ range_with_len 0 cells ∷ replicate lists []) }
        ensures room { IfOk result (λ links. links.room ≡ cells) }
    {
        let next = chained(alloc, cells)?;
        let lists = first_full(alloc, lists, cells)?;
        Ok(Links { next, lists })
    }

    /// How many cells there are.
    pub fn room(&self) -> u32
        ensures room { result ≡ self.now.room }
        ensures partition { IsPartition self.now.room self.now.lists }
    {
        self.next.len() as u32
    }

    /// The length of a list.
    pub fn length(&self, list: usize) -> u32
        requires { list < length self.now.lists }
        ensures length { result ≡ length (list_at self.now.lists list) }
        ensures partition { IsPartition self.now.room self.now.lists }
    {
        self.lists[list].length
    }

    /// Moves the first cell of one list behind another, and tells its number.
    pub fn shift(&mut self, from: usize, to: usize) -> Option<u32>
        requires from { from < length self.old.lists }
        requires to { to < length self.old.lists }
        requires apart { from ≢ to }
        ensures cell { result ≡ slice_get (list_at self.old.lists from) 0 }
        ensures none { IfNone result (self.new ≡ self.old) }
        ensures lists { self.new ≡ record self.old { lists = shifted self.old.lists from to } }
        ensures partition { IsPartition self.old.room self.old.lists }
    {
        let source = self.lists[from];
        if source.length == 0 {
            return None;
        }
        let cell = source.first;
        let target = self.lists[to];
        self.lists[from] = Ends {
            first: self.next[cell as usize],
            last: source.last,
            length: source.length - 1,
        };
        self.lists[to] = appended(&mut self.next, target, cell);
        Some(cell)
    }
}

/// So many cells, each followed by the next number.
fn chained(alloc: Global, cells: u32) -> Result<Vec<u32>, AllocError>
    ensures { IfOk result (λ next. next.items ≡ map (λ cell. cell + 1) (range_with_len 0 cells)) }
{
    (0..cells).map(|cell| cell + 1).collect(alloc)
}

/// The ends of a list of so many cells from 0 on, and of so many empty lists.
fn first_full(alloc: Global, lists: u32, cells: u32) -> Result<Vec<Ends>, AllocError>
    ensures { IfOk result (λ ends. ends.items ≡ rising_ends cells ∷ replicate lists no_ends) }
{
    let empty = Ends {
        first: 0,
        last: 0,
        length: 0,
    };
    let mut ends = vec![in alloc; empty; lists as usize + 1]?;
    ends[0] = Ends {
        first: 0,
        last: cells.saturating_sub(1),
        length: cells,
    };
    Ok(ends)
}

/// Links a cell behind a list.
fn appended(next: &mut Vec<u32>, ends: Ends, cell: u32) -> Ends
    requires last { 0 < ends.length → ends.last < vec_len next.old }
    requires fits { ends.length + 1 < 2 ^ 32 }
    ensures next { next.new.items ≡ linked next.old.items ends cell }
    ensures ends { result ≡ longer ends cell }
{
    if ends.length == 0 {
        return Ends {
            first: cell,
            last: cell,
            length: 1,
        };
    }
    next[ends.last as usize] = cell;
    Ends {
        first: ends.first,
        last: cell,
        length: ends.length + 1,
    }
}
