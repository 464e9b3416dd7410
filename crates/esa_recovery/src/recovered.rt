//! The database of what the rows of a database mean.

ghost use Rattle.std.specs.Prelude.{◌≡◌, ◌<◌, ◌↔◌, ◌^◌, Err, IfOk, OnOk, OnErr, MatchResult, length};
ghost use Rattle.esa_outside.specs.Cause.{HasCause};
ghost use Rattle.esa_page.specs.Underway.{IsWhole, IsLeft};
ghost use Rattle.esa_page.specs.Writing.{HasWritten, HasBroken};
ghost use Rattle.esa_analyser.specs.Database.{Database};
ghost use Rattle.esa_analyser.specs.Rows.{IsDatabase, database_bytes};
ghost use Rattle.esa_params.specs.declared.form.Form.{Form};
ghost use Rattle.esa_recovery.specs.Recovered.{recovered_database, total};
ghost use Rattle.esa_recovery.specs.declared.refused.RecoverRefused.TheVariants.{OutOfMemory, Sum};

use crate::groups::groups_of;
use crate::refused::RecoverRefused;
use crate::spelled::spelled;
use crate::tally::tally_of;
use esa_analyser::{Db, read_db, write_db};
use esa_outside::{Cabinet, Failed};
use std::alloc::Global;
use std::marker::Model;

/// The database of what the rows of a database mean, in the version of its file. It is seen as a database of that form.
#[derive(Drop)]
pub struct Recovered {
    db: Db,
}

impl Model for Recovered {
    ghost use Rattle.esa_analyser.specs.Stored.{Stored};

    ghost Value = { Stored };

    ghost view = { λ recovered. recovered.db };
}

/// The sum of all counts and of the number unopened.
fn total_of(db: &Db) -> u64
    ensures { result ≡ total db.now.database }
{
    let mut total = u64::from(db.unopened());
    for row in 0..db.rows() {
        total += u64::from(db.count(row));
    }
    total
}

/// The database whose file it is.
fn read(alloc: Global, bytes: &[u8]) -> Result<Recovered, RecoverRefused>
    ensures { (form : Form) (database : Database) → IsDatabase form database → bytes.now ≡ database_bytes form database
        → MatchResult result (λ recovered. recovered ≡ record { form = form; database = database }) (λ refused. refused ≡ OutOfMemory) }
{
    match read_db(alloc, bytes) {
        Ok(db) => Ok(Recovered { db }),
        Err(_) => Err(RecoverRefused::OutOfMemory),
    }
}

/// The database of what the rows of a database mean, where the sum of all counts is no greater than a count may be.
fn recovered_from(alloc: Global, db: &Db) -> Result<Recovered, RecoverRefused>
    requires { total db.now.database < 2 ^ 32 }
    ensures { MatchResult result (λ recovered. recovered ≡ record { form = db.now.form; database = recovered_database db.now.database })
        (λ refused. refused ≡ OutOfMemory) }
{
    let form = db.form();
    let groups = groups_of(alloc, db)?;
    let tally = tally_of(alloc, db, &groups)?;
    let bytes = spelled(alloc, form, &tally.sums, db.unopened() + tally.lost)?;
    read(alloc, &bytes)
}

impl Recovered {
    /// Puts the shares of a database together. It is refused exactly where the sum of all counts and of the number
    /// unopened passes 4,294,967,295, but for want of memory.
    pub fn make(alloc: Global, db: &Db) -> Result<Recovered, RecoverRefused>
        ensures recovered { IfOk result (λ recovered. recovered ≡ record { form = db.now.form; database = recovered_database db.now.database }) }

        // No count is lost.
        ensures whole { IfOk result (λ recovered. total recovered.database ≡ total db.now.database) }
        ensures sum { (result ≡ Err Sum) ↔ (4294967295 < total db.now.database) }
    {
        if total_of(db) > u64::from(u32::MAX) {
            return Err(RecoverRefused::Sum);
        }
        recovered_from(alloc, db)
    }

    /// The number of rows.
    pub fn rows(&self) -> u32
        ensures { result ≡ length self.now.database.rows }
    {
        self.db.rows()
    }

    /// The number of reports that mean no value, or that were in envelopes which gave none.
    pub fn unopened(&self) -> u32
        ensures { result ≡ self.now.database.unopened }
    {
        self.db.unopened()
    }

    /// Writes the database as a file of its version. The file starts anew. It takes no memory.
    pub fn write<K: Cabinet>(&self, cabinet: &mut K, name: &str) -> Result<(), Failed>
        ensures whole { OnOk result (IsWhole (K.told cabinet.old) name.now (database_bytes self.now.form self.now.database) (K.told cabinet.new)) }

        // A failed call leaves the file as it was, or a front of the whole file.
        ensures left { OnErr result (IsLeft (K.told cabinet.old) name.now (database_bytes self.now.form self.now.database) (K.told cabinet.new)) }
        ensures heard { OnOk result (HasWritten (K.heard cabinet.old) name.now (database_bytes self.now.form self.now.database) (K.heard cabinet.new)) }
        ensures heard_broken { OnErr result (HasBroken (K.heard cabinet.old) name.now (database_bytes self.now.form self.now.database) (K.heard cabinet.new)) }
        ensures cause { HasCause (K.faults cabinet.old) (K.faults cabinet.new) ⊥ result }

        // It is a database that a file can hold, so `read_db` accepts what was written.
        ensures readable { IsDatabase self.now.form self.now.database }
    {
        write_db(self.db.form(), &self.db, cabinet, name)
    }
}
