//! A database that was read from its file.

ghost use Rattle.std.specs.Prelude.{◌≡◌, ◌⊎◌, ◌<◌, ◌≤◌, None, Ok, Err, length, drop, map, slice_index_or, IfOk, MatchResult, []};
ghost use Rattle.esa_analyser.specs.declared.refused.DbRefused.TheVariants.{OutOfMemory};
ghost use Rattle.esa_params.specs.declared.form.Form.{Form};
ghost use Rattle.esa_analyser.specs.Database.{Database};
ghost use Rattle.esa_analyser.specs.Rows.{IsDatabase, database_bytes};
ghost use Rattle.esa_analyser.specs.Reading.{rows_in, row_at, RowsInside, database_in};

use crate::DbRefused;
use crate::row::read_row;
use esa_bytes::{Cut, u32_at};
use esa_header::form_of;
use esa_params::Form;
use std::alloc::Global;
use std::marker::Model;

/// The length of the header of a database file, in bytes.
const HEADER: usize = 13;

/// A database that a file can hold, and the form that the version of this file carries.
///
/// The rows stand in the file's own bytes, so that a value can be lent.
#[derive(Drop)]
pub struct Db {
    form: Form,
    bytes: Vec<u8>,
    starts: Vec<usize>,
    unopened: u32,
}

impl Model for Db {
    ghost use Rattle.std.specs.Prelude.{map};
    ghost use Rattle.esa_analyser.specs.Stored.{Stored};

    ghost Value = { Stored };

    ghost use Rattle.esa_analyser.specs.Reading.{row_at, RowsInside};
    ghost use Rattle.esa_analyser.specs.Rows.{IsDatabase};

    ghost view = { λ db. record { form = db.form; database = record { rows = map (row_at db.bytes.items) db.starts.items; unopened = db.unopened } } };

    ghost invariant = { λ db. RowsInside db.bytes.items db.starts.items × IsDatabase db.form (record { rows = map (row_at db.bytes.items) db.starts.items; unopened = db.unopened }) };
}

/// The places where the rows of a database file start, or the first test that a row fails.
fn read_rows(
    alloc: Global,
    bytes: &[u8],
    longest: u32,
    number: u32,
) -> Result<Vec<usize>, DbRefused>
    requires { 13 ≤ length bytes.now }
    ensures rows { let read = rows_in longest (length bytes.now) number 0 None (drop 13 bytes.now) in
        MatchResult result (λ starts. read ≡ Ok (map (row_at bytes.now) starts.items))
        (λ refused. (refused ≡ OutOfMemory) ⊎ (read ≡ Err refused)) }
    ensures inside { IfOk result (λ starts. RowsInside bytes.now starts.items) }
    ensures number { IfOk result (λ starts. length starts.items ≡ number) }
{
    let mut starts = Vec::new(alloc);
    let mut start = HEADER;
    let mut before: Option<&[u8]> = None;
    for row in 0..number {
        let end = read_row(bytes, start, longest, row, before)?;
        starts.push(start)?;
        before = Some(&bytes[start + 1..end - 4]);
        start = end;
    }
    if start < bytes.len() {
        return Err(DbRefused::Trailing);
    }
    Ok(starts)
}

/// What a database file says, or the first test that it fails.
fn tested_db(alloc: Global, bytes: &[u8]) -> Result<Db, DbRefused>
    ensures { MatchResult result (λ db. database_in bytes.now ≡ Ok db)
        (λ refused. (refused ≡ OutOfMemory) ⊎ (database_in bytes.now ≡ Err refused)) }
{
    if bytes.len() < HEADER {
        let have = bytes.len() as u64;
        return Err(DbRefused::Cut(Cut {
            want: HEADER as u64,
            have,
        }));
    }
    if !bytes.starts_with(b"ESAD") {
        return Err(DbRefused::BadMagic);
    }
    let form = match form_of(bytes[4]) {
        Some(form) => form,
        None => return Err(DbRefused::BadVersion),
    };
    let unopened = u32_at(bytes, 9);
    let starts = read_rows(alloc, bytes, form.report() - 2, u32_at(bytes, 5))?;
    let bytes = Vec::from_slice(alloc, bytes)?;
    Ok(Db {
        form,
        bytes,
        starts,
        unopened,
    })
}

/// Reads a database file of either version. The refusal is the first test that it fails.
pub fn read_db(alloc: Global, bytes: &[u8]) -> Result<Db, DbRefused>
    ensures first_refusal { MatchResult result (λ db. database_in bytes.now ≡ Ok db)
        (λ refused. (refused ≡ OutOfMemory) ⊎ (database_in bytes.now ≡ Err refused)) }

    // What is accepted is the one spelling of what was read.
    ensures spelled { IfOk result (λ db. IsDatabase db.form db.database × (bytes.now ≡ database_bytes db.form db.database)) }

    // The file of each database is accepted, but for want of memory.
    ensures accepts { (form : Form) (database : Database) → IsDatabase form database
        → bytes.now ≡ database_bytes form database
        → MatchResult result (λ db. db ≡ record { form = form; database = database }) (λ refused. refused ≡ OutOfMemory) }
{
    tested_db(alloc, bytes)
}

impl Db {
    /// The form that the version carries: One for version 1.
    pub fn form(&self) -> Form
        ensures form { result ≡ self.now.form }

        // A file of this form holds the database.
        ensures holds { IsDatabase self.now.form self.now.database }
    {
        self.form
    }

    /// The number of rows.
    pub fn rows(&self) -> u32
        ensures { result ≡ length self.now.database.rows }
    {
        self.starts.len() as u32
    }

    /// The number of envelopes that gave no value.
    pub fn unopened(&self) -> u32
        ensures { result ≡ self.now.database.unopened }
    {
        self.unopened
    }

    /// The value of a row, counted from 0.
    pub fn value(&self, row: u32) -> &[u8]
        requires { row < length self.now.database.rows }
        ensures value { result.now ≡ (slice_index_or self.now.database.rows row ([], 0)).0 }
        ensures short { length result.now ≤ 190 }
    {
        let start = self.starts[row as usize];
        let length = usize::from(self.bytes[start]);
        &self.bytes[start + 1..start + 1 + length]
    }

    /// How often the value of a row, counted from 0, was reported.
    pub fn count(&self, row: u32) -> u32
        requires { row < length self.now.database.rows }
        ensures { result ≡ (slice_index_or self.now.database.rows row ([], 0)).1 }
    {
        let start = self.starts[row as usize];
        let row = &self.bytes[start..];
        u32_at(row, 1 + usize::from(row[0]))
    }
}
