//! A batch in a file, read by its places.

ghost use Rattle.std.specs.Prelude.{◌*◌, ◌+◌, None, []};
ghost use Rattle.esa_batcher.specs.InFile.{FileGround, records_of, part_heard};
ghost use Rattle.esa_outside.specs.Told.{Lacks};

use esa_outside::{Cabinet, Failed, Records};
use std::marker::Model;

/// What a batch in a file stands on: the files that its cabinet tells, and the file's name and numbers.
/// It is there for contracts alone, and no value of it is made.
#[derive(Drop)]
pub struct Standing {
    count: u32,
}

impl Model for Standing {
    ghost use Rattle.std.specs.Prelude.{None, []};
    ghost use Rattle.esa_batcher.specs.InFile.{FileGround, ground_code};

    ghost Value = { FileGround };

    ghost coded = { ground_code };

    ghost view = { λ a. record { files = None; name = []; start = 0; size = 0; count = a.count; reference = 0 } };
}

/// The records of a batch file, which are read when they are asked for.
///
/// It tells the records of its file where its cabinet tells the file, and its faults are its cabinet's.
#[derive(Drop)]
pub struct BatchFile<'a, 'n, K: Cabinet> {
    pub cabinet: &'a mut K,
    pub name: &'n str,
    /// The place of the first record's first byte.
    pub start: u32,
    /// The length of a record, in bytes.
    pub size: u32,
    /// The number of records.
    pub count: u32,
    ghost whole: { Lacks (K.told cabinet.now) name.now (start + count * size) → ⊥ },
}

impl<'a, 'n, K: Cabinet> Records for BatchFile<'a, 'n, K> {
    type Ground = Standing;

    ghost told = { λ batch. records_of (K.told batch.cabinet.now) batch.name.now batch.start batch.size batch.count };

    ghost grounds = { λ batch. record { files = K.told batch.cabinet.now; name = batch.name.now; start = batch.start; size = batch.size; count = batch.count; reference = batch.cabinet.ghost_name } };

    ghost count = { λ batch. batch.count };

    ghost size = { λ batch. batch.size };

    ghost faults = { λ batch. K.faults batch.cabinet.now };

    ghost heard = { λ batch. K.heard batch.cabinet.now };

    ghost part = { part_heard };

    fn faults(&self) -> u64 {
        self.cabinet.faults()
    }

    fn count(&self) -> u32 {
        self.count
    }

    fn size(&self) -> u32 {
        self.size
    }

    fn told_as_counted(&self) {}

    fn records(&mut self, first: u32, out: &mut [u8]) -> Result<(), Failed> {
        if out.len() == 0 {
            return Ok(());
        }
        let at = self.start as u64 + first as u64 * self.size as u64;
        self.cabinet.read_at(self.name, at, out)
    }
}
