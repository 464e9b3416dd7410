//! The table of a threshold: the real records of a list, and which of them are kept.

ghost use Rattle.std.specs.Prelude.{◌≡◌, ◌+◌, ◌<◌, ℕ, List, [], ◌∷◌, ◌++◌, false, replicate, length, slice_index_or, IfOk};
ghost use Rattle.esa_hmac.specs.Mac.{StandsFor};
ghost use Rattle.esa_params.specs.Form.{inner_length};
ghost use Rattle.esa_crowds.specs.Entries.{entry_in};
ghost use Rattle.esa_crowds.specs.Kept.{drops_in};
ghost use Rattle.esa_crowds.specs.Rows.{kept_at};

use crate::order::sort;
use crate::row::{Row, row_of};
use crate::runs::mark_kept;
use esa_hmac::Mac;
use esa_job::Drops;
use esa_params::Form;
use std::alloc::{AllocError, Global};
use std::marker::Model;

/// The real records of a list, gathered one after another, and for each position whether its record is kept. It is seen
/// as the form of the records, how many there is room for, how many were looked at, the entries of the real ones among
/// them, and the marks of the positions.
#[derive(Drop)]
pub struct Table {
    form: Form,
    rows: Vec<Row>,
    order: Vec<u32>,
    marks: Vec<bool>,
    next: u32,
    room: u32,
}

impl Model for Table {
    ghost use Rattle.esa_crowds.specs.Gathered.{Gathered};

    ghost Value = { Gathered };

    ghost use Rattle.esa_crowds.specs.Inside.{IsTable, gathered_in};

    ghost view = { gathered_in };

    ghost invariant = { IsTable };
}

impl Table {
    /// Room for `n` records of a form. None was looked at, and no position is marked.
    pub fn make(alloc: Global, form: Form, n: u32) -> Result<Table, AllocError>
        ensures { IfOk result (λ table. table ≡ record { form = form; room = n; next = 0; entries = []; kept = replicate n false }) }
    {
        Ok(Table {
            form,
            rows: Vec::with_capacity(alloc, n as usize)?,
            order: Vec::with_capacity(alloc, n as usize)?,
            marks: vec![in alloc; false; n as usize]?,
            next: 0,
            room: n,
        })
    }

    /// Begins with a new list. The marks stay.
    pub fn begin(&mut self)
        ensures { self.new ≡ record self.old { next = 0; entries = [] } }
    {
        self.rows.clear();
        self.next = 0;
    }

    /// Looks at a real record: its outer plain text. Its tag is made with a Mac of the key and the empty message.
    pub fn add(&mut self, codes: &Mac, text: &[u8])
        requires whole { length text.now ≡ 32 + inner_length self.old.form }
        requires room { self.old.next < self.old.room }
        ensures entry { (key : List ℕ) → StandsFor codes.now key []
            → self.new.entries ≡ self.old.entries ++ entry_in self.old.form key self.old.next text.now ∷ [] }
        ensures others { self.new ≡ record self.old { next = self.old.next + 1; entries = self.new.entries } }
    {
        self.rows.push_reserved(row_of(codes, self.next, text));
        self.next += 1;
    }

    /// Looks at a record that isn't real.
    pub fn pass(&mut self)
        requires room { self.old.next < self.old.room }
        ensures { self.new ≡ record self.old { next = self.old.next + 1 } }
    {
        self.next += 1;
    }

    /// Marks the positions of the records that are kept, and no others: of each crowd the first ones are dropped, as many
    /// as the table of drops says for the first byte of the crowd's code, and the others are kept where at least `t` are
    /// left.
    pub fn decide(&mut self, codes: &Mac, drops: &Drops, t: u32)
        ensures kept { (key : List ℕ) (position : ℕ) → StandsFor codes.now key [] → position < self.old.room
            → slice_index_or self.new.kept position false ≡ kept_at (drops_in key drops.now) t self.old.entries position }
        ensures others { self.new ≡ record self.old { kept = self.new.kept } }
    {
        sort(&self.rows, &mut self.order);
        self.marks.fill(false);
        mark_kept(codes, drops, t, &self.rows, &self.order, &mut self.marks);
    }

    /// Whether the record at a position is kept.
    pub fn is_kept(&self, position: u32) -> bool
        requires { position < self.now.room }
        ensures { result ≡ slice_index_or self.now.kept position false }
    {
        self.marks[position as usize]
    }
}
