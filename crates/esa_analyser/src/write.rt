//! Writing databases.

ghost use Rattle.std.specs.Prelude.{◌≤◌, ◌++◌, List, ℕ, Option, All, length, flat_map, OnOk, OnErr};
ghost use Rattle.esa_outside.specs.Files.{Files};
ghost use Rattle.esa_outside.specs.Cause.{HasCause};
ghost use Rattle.esa_outside.specs.Heard.{Event};
ghost use Rattle.esa_page.specs.Underway.{IsUnderway, IsWhole, IsLeft};
ghost use Rattle.esa_page.specs.Writing.{IsWriting, HasWritten, HasBroken};
ghost use Rattle.esa_analyser.specs.Database.{longest};
ghost use Rattle.esa_analyser.specs.Rows.{row_bytes, database_bytes};

use crate::Db;
use crate::put::{front, put_row};
use esa_outside::{Cabinet, Failed};
use esa_page::Page;
use esa_params::Form;

/// Puts the rows of a database behind the bytes that wait in the page.
fn put_rows<K: Cabinet>(db: &Db, page: &mut Page, cabinet: &mut K, name: &str) -> Result<(), Failed>
    ensures added { (before : Option Files) (text : List ℕ)
        → IsUnderway before name.now text page.old (K.told cabinet.old)
        → OnOk result (IsUnderway before name.now (text ++ flat_map row_bytes db.now.database.rows) page.new (K.told cabinet.new)) }
    ensures failed { (before : Option Files) (text : List ℕ)
        → IsUnderway before name.now text page.old (K.told cabinet.old)
        → OnErr result (IsLeft before name.now (text ++ flat_map row_bytes db.now.database.rows) (K.told cabinet.new)) }
    ensures heard { (before : List Event) (text : List ℕ)
        → IsWriting before name.now text page.old (K.heard cabinet.old)
        → OnOk result (IsWriting before name.now (text ++ flat_map row_bytes db.now.database.rows) page.new (K.heard cabinet.new)) }
    ensures heard_broken { (before : List Event) (text : List ℕ)
        → IsWriting before name.now text page.old (K.heard cabinet.old)
        → OnErr result (HasBroken before name.now (text ++ flat_map row_bytes db.now.database.rows) (K.heard cabinet.new)) }
    ensures cause { (before : Option Files) (text : List ℕ)
        → IsUnderway before name.now text page.old (K.told cabinet.old)
        → HasCause (K.faults cabinet.old) (K.faults cabinet.new) ⊥ result }
{
    for row in 0..db.rows() {
        put_row(page, cabinet, name, db.value(row), db.count(row))?;
    }
    Ok(())
}

/// Writes a database as a file of the form's version, whatever file it was read from. The file starts
/// anew. It takes no memory.
pub fn write_db<K: Cabinet>(form: Form, db: &Db, cabinet: &mut K, name: &str) -> Result<(), Failed>
    requires { All (λ row. length row.0 ≤ longest form) db.now.database.rows }
    ensures whole { OnOk result (IsWhole (K.told cabinet.old) name.now (database_bytes form db.now.database) (K.told cabinet.new)) }

    // A failed call leaves the file as it was, or a front of the whole file.
    ensures left { OnErr result (IsLeft (K.told cabinet.old) name.now (database_bytes form db.now.database) (K.told cabinet.new)) }
    ensures heard { OnOk result (HasWritten (K.heard cabinet.old) name.now (database_bytes form db.now.database) (K.heard cabinet.new)) }
    ensures heard_broken { OnErr result (HasBroken (K.heard cabinet.old) name.now (database_bytes form db.now.database) (K.heard cabinet.new)) }
    ensures cause { HasCause (K.faults cabinet.old) (K.faults cabinet.new) ⊥ result }
{
    let mut page = Page::start(cabinet, name)?;
    page.put(cabinet, name, &front(form, db.rows(), db.unopened()))?;
    put_rows(db, &mut page, cabinet, name)?;
    page.finish(cabinet, name)
}
