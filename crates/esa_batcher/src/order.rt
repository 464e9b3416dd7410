//! Whether the records of a file rise, found through a buffer that each of them passes once.

ghost use Rattle.std.specs.Prelude.{◌≡◌, ◌*◌, ◌+◌, ◌-◌, ◌≤◌, ◌<◌, ◌^◌, length, take, min};
ghost use Rattle.esa_outside.specs.Cause.{HasCause};
ghost use Rattle.esa_outside.specs.Told.{Lacks};
ghost use Rattle.esa_batcher.specs.Paging.{PartHeard, RecordsHeard};

use crate::piece::{keep, read_piece};
use crate::rising::first_fall;
use esa_outside::{Cabinet, Failed};

/// Some of the records of a file: so many of a size, from the place `first` on. The buffer begins with
/// their first bytes, which were kept.
#[derive(Clone, Copy)]
struct Part {
    first: u32,
    number: u32,
    size: usize,
    kept: usize,
}

/// All records of a file, one behind another. The buffer begins with their first bytes, and what is
/// behind those starts at the place `at` of the file.
#[derive(Clone, Copy)]
pub(crate) struct FileRecords {
    pub(crate) at: u64,
    pub(crate) kept: usize,
    pub(crate) size: usize,
    pub(crate) count: u32,
}

/// The number of records that there is room for, and that are left.
fn lesser(room: usize, left: u32) -> u32
    ensures { result ≡ min room left }
{
    if room < left as usize {
        room as u32
    } else {
        left
    }
}

/// The first place of a part of the records whose record is below the one before it. The buffer keeps
/// the last of them.
fn part_fall<K: Cabinet>(
    cabinet: &mut K,
    name: &str,
    at: u64,
    part: &Part,
    buffer: &mut [u8],
) -> Result<Option<u32>, Failed>
    requires some { 0 < part.now.number }
    requires few { part.now.first + part.now.number < 2 ^ 32 }
    requires kept { part.now.kept ≤ part.now.size }
    requires room { part.now.number * part.now.size ≤ length buffer.old }
    requires whole { Lacks (K.told cabinet.old) name.now (at + (part.now.number * part.now.size - part.now.kept)) → ⊥ }
    ensures part { PartHeard name.now (K.told cabinet.old) at (K.heard cabinet.old) (K.heard cabinet.new) part.now.size part.now.first part.now.number (take part.now.kept buffer.old) buffer.new result }
    ensures told { K.told cabinet.new ≡ K.told cabinet.old }
    ensures buffer { length buffer.new ≡ length buffer.old }
    ensures cause { HasCause (K.faults cabinet.old) (K.faults cabinet.new) ⊥ result }
{
    let end = part.number as usize * part.size;
    read_piece(cabinet, name, at, buffer, part.kept, end)?;
    let fall = first_fall(&buffer[..end], part.size, part.number, part.first);
    keep(buffer, end - part.size, end);
    Ok(fall)
}

/// The first place whose record is below the one before it. The buffer has room for two records or more.
pub(crate) fn scan_order<K: Cabinet>(
    cabinet: &mut K,
    name: &str,
    records: &FileRecords,
    buffer: &mut [u8],
) -> Result<Option<u32>, Failed>
    requires size { 0 < records.now.size }
    requires kept { records.now.kept ≤ records.now.size }
    requires within { records.now.kept ≤ records.now.count * records.now.size }
    requires room { 2 * records.now.size ≤ length buffer.old }
    requires few { records.now.at + records.now.count * records.now.size < 2 ^ 64 }
    requires whole { Lacks (K.told cabinet.old) name.now (records.now.at + (records.now.count * records.now.size - records.now.kept)) → ⊥ }
    ensures records { RecordsHeard name.now (K.told cabinet.old) records.now.at (K.heard cabinet.old) (K.heard cabinet.new) records.now.size records.now.count (take records.now.kept buffer.old) result }
    ensures told { K.told cabinet.new ≡ K.told cabinet.old }
    ensures cause { HasCause (K.faults cabinet.old) (K.faults cabinet.new) ⊥ result }
{
    let room = buffer.len() / records.size;
    let mut first = 0;
    let mut at = records.at;
    let mut kept = records.kept;
    while first + 1 < records.count {
        let number = lesser(room, records.count - first);
        let part = Part {
            first,
            number,
            size: records.size,
            kept,
        };
        match part_fall(cabinet, name, at, &part, buffer)? {
            Some(fall) => return Ok(Some(fall)),
            None => {
                at += (number as usize * records.size - kept) as u64;
                first += number - 1;
                kept = records.size;
            }
        }
    }
    Ok(None)
}
