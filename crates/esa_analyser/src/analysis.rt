//! Counting the reports of a list of envelopes.

ghost use Rattle.std.specs.Prelude.{◌≡◌, ◌*◌, ◌≤◌, ℕ, List, [], length, count_by, IfOk, OnOk, OnErr};
ghost use Rattle.std.specs.List.{concat};
ghost use Rattle.std.specs.List.Sorted.{IsPermutation};
ghost use Rattle.esa_header.specs.Pieces.{HaveLength};
ghost use Rattle.esa_params.specs.Form.{inner_length};
ghost use Rattle.esa_outside.specs.Cause.{HasCause};
ghost use Rattle.esa_page.specs.Underway.{IsWhole, IsLeft};
ghost use Rattle.esa_page.specs.Writing.{HasWritten, HasBroken};
ghost use Rattle.esa_analyser.specs.Rows.{IsDatabase, database_bytes};
ghost use Rattle.esa_analyser.specs.Opened.{database_of, gives, count_in};

use crate::kept::{Kept, write_kept};
use esa_envelope::{Keys, prepare};
use esa_outside::{Cabinet, Failed};
use esa_params::Form;
use std::alloc::{AllocError, Global};
use std::marker::Model;

/// The database of the list that was counted last, with room for the reports of a longer one.
#[derive(Drop)]
pub struct Analysis {
    kept: Kept,
    total: u32,
    rows: u32,
    room: u32,
}

impl Model for Analysis {
    ghost use Rattle.esa_analyser.specs.Counted.{Counted};

    ghost Value = { Counted };

    ghost use Rattle.esa_analyser.specs.Inside.{counted_in, IsCounted};

    ghost view = { counted_in };

    ghost invariant = { IsCounted };
}

impl Analysis {
    /// Room for the reports of `n` envelopes of the form. Nothing is counted yet.
    pub fn make(alloc: Global, form: Form, n: u32) -> Result<Analysis, AllocError>
        ensures { IfOk result (λ analysis. analysis ≡ record { form = form; room = n; database = record { rows = []; unopened = 0 } }) }
    {
        let kept = Kept::reserved(alloc, form, n as usize)?;
        Ok(Analysis {
            kept,
            total: 0,
            rows: 0,
            room: n,
        })
    }

    /// Replaces what was counted by the reports of the envelopes.
    fn recount(&mut self, inner: &Keys, envelopes: &[u8])
        requires whole { (n : ℕ) × (length envelopes.now ≡ inner_length self.old.form * n) × (n ≤ self.old.room) }
        ensures { (list : List (List ℕ)) → HaveLength (inner_length self.old.form) list → envelopes.now ≡ concat list
            → self.new ≡ record self.old { database = database_of inner.now list } }
    {
        let number = envelopes.len() / self.kept.form().inner() as usize;
        self.rows = self.kept.count(&prepare(inner), envelopes, number);
        self.total = number as u32;
    }

    /// Counts the reports of inner envelopes that are joined, under the inner keys of their form and
    /// epoch. It begins anew: what was counted before is forgotten. It takes no memory.
    pub fn count(&mut self, inner: &Keys, envelopes: &[u8])
        requires whole { (n : ℕ) × (length envelopes.now ≡ inner_length self.old.form * n) × (n ≤ self.old.room) }
        ensures counted { (list : List (List ℕ)) → HaveLength (inner_length self.old.form) list → envelopes.now ≡ concat list
            → self.new ≡ record self.old { database = database_of inner.now list } }

        // The count of each value is the number of envelopes that give it.
        ensures counts { (list : List (List ℕ)) (value : List ℕ) → HaveLength (inner_length self.old.form) list → envelopes.now ≡ concat list
            → count_in self.new.database value ≡ count_by (gives inner.now value) list }

        // The order of the envelopes makes no difference.
        ensures any_order { (list others : List (List ℕ)) → HaveLength (inner_length self.old.form) list → envelopes.now ≡ concat list
            → IsPermutation list others → self.new.database ≡ database_of inner.now others }
    {
        self.recount(inner, envelopes);
    }

    /// The number of rows of the database.
    pub fn rows(&self) -> u32
        ensures { result ≡ length self.now.database.rows }
    {
        self.rows
    }

    /// The number of envelopes that gave no value.
    pub fn unopened(&self) -> u32
        ensures { result ≡ self.now.database.unopened }
    {
        self.total - self.kept.reports()
    }

    /// Writes the database as a file of the form's version. The file starts anew. It takes no memory.
    pub fn write<K: Cabinet>(&self, cabinet: &mut K, name: &str) -> Result<(), Failed>
        ensures whole { OnOk result (IsWhole (K.told cabinet.old) name.now (database_bytes self.now.form self.now.database) (K.told cabinet.new)) }

        // A failed call leaves the file as it was, or a front of the whole file.
        ensures left { OnErr result (IsLeft (K.told cabinet.old) name.now (database_bytes self.now.form self.now.database) (K.told cabinet.new)) }
        ensures heard { OnOk result (HasWritten (K.heard cabinet.old) name.now (database_bytes self.now.form self.now.database) (K.heard cabinet.new)) }
        ensures heard_broken { OnErr result (HasBroken (K.heard cabinet.old) name.now (database_bytes self.now.form self.now.database) (K.heard cabinet.new)) }
        ensures cause { HasCause (K.faults cabinet.old) (K.faults cabinet.new) ⊥ result }

        // It is a database that a file can hold, so `read_db` accepts what was written.
        ensures readable { IsDatabase self.now.form self.now.database }
    {
        write_kept(&self.kept, self.rows, self.unopened(), cabinet, name)
    }
}
