//! The sort keys of opened reports with their counts, of either form.

ghost use Rattle.std.specs.Prelude.{◌≡◌, ◌*◌, ◌<◌, ◌≤◌, ◌^◌, ◌++◌, [], List, ℕ, Option, length, filter_map, IfOk, OnOk, OnErr};
ghost use Rattle.esa_header.specs.Pieces.{pieces};
ghost use Rattle.esa_params.specs.Form.{inner_length};
ghost use Rattle.esa_analyser.specs.Database.{rows_of};
ghost use Rattle.esa_analyser.specs.Opened.{reported};
ghost use Rattle.esa_outside.specs.Files.{Files};
ghost use Rattle.esa_outside.specs.Cause.{HasCause};
ghost use Rattle.esa_outside.specs.Heard.{Event};
ghost use Rattle.esa_page.specs.Underway.{IsUnderway, IsWhole, IsLeft};
ghost use Rattle.esa_page.specs.Writing.{IsWriting, HasWritten, HasBroken};
ghost use Rattle.esa_analyser.specs.RunBytes.{run_bytes};
ghost use Rattle.esa_analyser.specs.KeptBytes.{kept_bytes};
ghost use Rattle.esa_analyser.specs.Kept.{keys_of, form_of, capacity_of, values_of, AreRepeated, AreSorted};

use crate::keys::{count, put_runs};
use crate::put::front;
use crate::repeated::{Repeated, reports};
use esa_envelope::Prepared;
use esa_outside::{Cabinet, Failed};
use esa_page::Page;
use esa_params::Form;
use std::alloc::{AllocError, Global};

/// The sort keys with their counts, in rising order, in room that was reserved.
#[derive(Drop)]
pub(crate) enum Kept {
    One(Vec<Repeated<64>>),
    Two(Vec<Repeated<192>>),
}

impl Kept {
    /// No keys, and room for `n`.
    pub(crate) fn reserved(alloc: Global, form: Form, n: usize) -> Result<Kept, AllocError>
        ensures form { IfOk result (λ kept. form_of kept ≡ form) }
        ensures empty { IfOk result (λ kept. keys_of kept ≡ []) }
        ensures each { IfOk result AreRepeated }
        ensures room { IfOk result (λ kept. capacity_of kept ≡ n) }
    {
        match form {
            Form::One => {
                let keys = Vec::with_capacity(alloc, n)?;
                Ok(Kept::One(keys))
            }
            Form::Two => {
                let keys = Vec::with_capacity(alloc, n)?;
                Ok(Kept::Two(keys))
            }
        }
    }

    /// The form of the reports.
    pub(crate) fn form(&self) -> Form
        ensures { result ≡ form_of self.now }
    {
        match self {
            Kept::One(_) => Form::One,
            Kept::Two(_) => Form::Two,
        }
    }

    /// The number of reports.
    pub(crate) fn reports(&self) -> u32
        requires { length (keys_of self.now) < 2 ^ 32 }
        ensures { result ≡ length (keys_of self.now) }
    {
        match self {
            Kept::One(keys) => reports(keys),
            Kept::Two(keys) => reports(keys),
        }
    }

    /// Replaces the keys by those of the envelopes, which are `number` and joined, and answers how many
    /// of the keys differ.
    pub(crate) fn count(&mut self, inner: &Prepared, envelopes: &[u8], number: usize) -> u32
        requires whole { length envelopes.now ≡ inner_length (form_of self.old) * number }
        requires room { number ≤ capacity_of self.old }
        requires few { number < 2 ^ 32 }
        ensures form { form_of self.new ≡ form_of self.old }
        ensures rows { rows_of (values_of self.new) ≡ rows_of (filter_map (reported inner.now) (pieces (inner_length (form_of self.old)) number envelopes.now)) }
        ensures number { length (keys_of self.new) ≡ length (filter_map (reported inner.now) (pieces (inner_length (form_of self.old)) number envelopes.now)) }
        ensures different { result ≡ length (rows_of (values_of self.new)) }
        ensures sorted { AreSorted self.new }
        ensures few { length (keys_of self.new) ≤ number }
        ensures room { capacity_of self.new ≡ capacity_of self.old }
    {
        match self {
            Kept::One(keys) => count(keys, inner, envelopes, number),
            Kept::Two(keys) => count(keys, inner, envelopes, number),
        }
    }

    /// Puts the rows of the keys behind the bytes that wait in the page.
    pub(crate) fn put<K: Cabinet>(
        &self,
        page: &mut Page,
        cabinet: &mut K,
        name: &str,
    ) -> Result<(), Failed>
        requires few { length (keys_of self.now) < 2 ^ 32 }
        requires sorted { AreSorted self.now }
        ensures added { (before : Option Files) (text : List ℕ)
            → IsUnderway before name.now text page.old (K.told cabinet.old)
            → OnOk result (IsUnderway before name.now (text ++ run_bytes (keys_of self.now)) page.new (K.told cabinet.new)) }
        ensures failed { (before : Option Files) (text : List ℕ)
            → IsUnderway before name.now text page.old (K.told cabinet.old)
            → OnErr result (IsLeft before name.now (text ++ run_bytes (keys_of self.now)) (K.told cabinet.new)) }
        ensures heard { (before : List Event) (text : List ℕ)
            → IsWriting before name.now text page.old (K.heard cabinet.old)
            → OnOk result (IsWriting before name.now (text ++ run_bytes (keys_of self.now)) page.new (K.heard cabinet.new)) }
        ensures heard_broken { (before : List Event) (text : List ℕ)
            → IsWriting before name.now text page.old (K.heard cabinet.old)
            → OnErr result (HasBroken before name.now (text ++ run_bytes (keys_of self.now)) (K.heard cabinet.new)) }
        ensures cause { (before : Option Files) (text : List ℕ)
            → IsUnderway before name.now text page.old (K.told cabinet.old)
            → HasCause (K.faults cabinet.old) (K.faults cabinet.new) ⊥ result }
    {
        match self {
            Kept::One(keys) => put_runs(keys, page, cabinet, name),
            Kept::Two(keys) => put_runs(keys, page, cabinet, name),
        }
    }
}

/// Writes the database of the kept keys as a file. It starts anew.
pub(crate) fn write_kept<K: Cabinet>(
    kept: &Kept,
    rows: u32,
    unopened: u32,
    cabinet: &mut K,
    name: &str,
) -> Result<(), Failed>
    requires few { length (keys_of kept.now) < 2 ^ 32 }
    requires sorted { AreSorted kept.now }
    requires rows { rows ≡ length (rows_of (values_of kept.now)) }
    ensures whole { OnOk result (IsWhole (K.told cabinet.old) name.now (kept_bytes kept.now unopened) (K.told cabinet.new)) }
    ensures left { OnErr result (IsLeft (K.told cabinet.old) name.now (kept_bytes kept.now unopened) (K.told cabinet.new)) }
    ensures heard { OnOk result (HasWritten (K.heard cabinet.old) name.now (kept_bytes kept.now unopened) (K.heard cabinet.new)) }
    ensures heard_broken { OnErr result (HasBroken (K.heard cabinet.old) name.now (kept_bytes kept.now unopened) (K.heard cabinet.new)) }
    ensures cause { HasCause (K.faults cabinet.old) (K.faults cabinet.new) ⊥ result }
{
    let mut page = Page::start(cabinet, name)?;
    page.put(cabinet, name, &front(kept.form(), rows, unopened))?;
    kept.put(&mut page, cabinet, name)?;
    page.finish(cabinet, name)
}
