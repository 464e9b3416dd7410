//! A file that is read to its end, if it is no longer than a limit.

ghost use Rattle.std.specs.Prelude.{◌≡◌, ◌<◌, ◌≤◌, ◌++◌, ◌∷◌, [], ℕ, IfOk, IfErr, length};
ghost use Rattle.std.specs.FinMap as map;
ghost use Rattle.esa_outside.specs.Files.{Files};
ghost use Rattle.esa_outside.specs.declared.whole.ReadRefused.TheVariants.{Failed as NotRead, OutOfMemory};
ghost use Rattle.esa_outside.specs.Told.{Lacks};
ghost use Rattle.esa_outside.specs.Heard.{length_of, part_of};
ghost use Rattle.esa_outside.specs.Whole.{Counted, Refuses, HasHeard};

use crate::{Cabinet, Failed};
use std::alloc::{AllocError, Global};

/// Why a file was not read whole.
#[derive(Clone, Copy, PartialEq, Eq, Debug)]
pub enum ReadRefused {
    /// The cabinet failed, or the file is not there.
    Failed,
    /// The file has this many bytes, which is above the limit.
    TooLarge { length: u64 },
    /// There is no memory for the file's bytes.
    OutOfMemory,
}

impl From<Failed> for ReadRefused {
    ghost from_gives = { λ _ e. e ≡ NotRead };

    fn from(_: Failed) -> Self {
        ReadRefused::Failed
    }
}

impl From<AllocError> for ReadRefused {
    ghost from_gives = { λ _ e. e ≡ OutOfMemory };

    fn from(_: AllocError) -> Self {
        ReadRefused::OutOfMemory
    }
}

/// Reads a file of at most `limit` bytes to its end.
pub fn read_whole<K: Cabinet>(
    alloc: Global,
    cabinet: &mut K,
    name: &str,
    limit: u64,
) -> Result<Vec<u8>, ReadRefused>
    ensures bytes { (files : Files) → K.told cabinet.old ≡ Some files → IfOk result (λ bytes. map.get files name.now ≡ Some bytes.items) }
    ensures within { IfOk result (λ bytes. length bytes.items ≤ limit) }

    // It is too large exactly where the told length passes the limit and the cabinet did not fail before.
    ensures refused { (files : Files) → K.told cabinet.old ≡ Some files → IfErr result (Refuses (map.get files name.now) limit) }
    ensures past_limit { (n : ℕ) → result ≡ Err (ReadRefused.TooLarge n) → limit < n }
    ensures told { K.told cabinet.new ≡ K.told cabinet.old }

    // What is heard is the file's length, and then all its bytes.
    ensures heard { IfOk result (λ bytes. K.heard cabinet.new ≡ K.heard cabinet.old ++ length_of name.now (length bytes.items) ∷ part_of name.now 0 bytes.items ∷ []) }
    ensures heard_refused { IfErr result (HasHeard (K.heard cabinet.old) name.now limit (K.heard cabinet.new)) }
    ensures cause { Counted (K.faults cabinet.old) (K.faults cabinet.new) (Lacks (K.told cabinet.old) name.now 0) result }
{
    let length = cabinet.length(name)?;
    if length > limit {
        return Err(ReadRefused::TooLarge { length });
    }
    let mut bytes = vec![in alloc; 0; length as usize]?;
    cabinet.read_at(name, 0, &mut bytes)?;
    Ok(bytes)
}
