//! Checking a batch file through a buffer of fixed size.

ghost use Rattle.std.specs.Prelude.{◌≡◌, ◌⊎◌, ◌*◌, ◌+◌, ◌≤◌, ℕ, List, Some, None, Err, IfOk, length};
ghost use Rattle.std.specs.FinMap as map;
ghost use Rattle.esa_lists.specs.Files.{Files};
ghost use Rattle.esa_params.specs.Form.{envelope_length};
ghost use Rattle.esa_header.specs.Header.{header_length};
ghost use Rattle.esa_outside.specs.Told.{Lacks};
ghost use Rattle.esa_batcher.specs.declared.refused.BatchRefused.TheVariants.{OutOfMemory};
ghost use Rattle.esa_batcher.specs.declared.scan.ScanRefused.TheVariants as refusal;
ghost use Rattle.esa_batcher.specs.Paging.{HeaderHeard, FileHeard};
ghost use Rattle.esa_batcher.specs.Refusal.{refusal_of};
ghost use Rattle.esa_batcher.specs.Scanning.{scan_in, ScanCounted, ScanHeard};

use crate::order::{FileRecords, scan_order};
use crate::piece::{keep, read_piece};
use crate::read::check_number;
use crate::refused::BatchRefused;
use esa_header::{FileKind, Header, HeaderRefused, header_length, read_header};
use esa_outside::{Cabinet, Failed};
use esa_params::{Form, MOST_RECORD_BYTES};

/// What the header of a batch file says, once the whole file was checked.
#[derive(Clone, Copy, PartialEq, Eq, Debug)]
pub struct Scanned {
    /// The form of the envelopes.
    pub form: Form,
    /// Their key epoch. It is 0 in form One.
    pub epoch: u32,
    /// The number of envelopes.
    pub count: u32,
}

impl Scanned {
    /// The place in the file at which the records start.
    pub fn start(&self) -> u32
        ensures { result ≡ header_length self.now.form }
    {
        header_length(self.form)
    }
}

/// Why a batch file was not accepted.
#[derive(Clone, Copy, PartialEq, Eq, Debug)]
pub enum ScanRefused {
    /// The cabinet failed, or the file is not there.
    Failed,
    /// The file has this many bytes, which is above the limit.
    TooLarge { length: u64 },
    /// The first test that the file fails. It never is want of memory.
    Grammar(BatchRefused),
}

impl From<Failed> for ScanRefused {
    ghost from_gives = { λ _ refused. refused ≡ refusal.Failed };

    fn from(_: Failed) -> Self {
        ScanRefused::Failed
    }
}

impl From<BatchRefused> for ScanRefused {
    ghost from_gives = { λ batch refused. refused ≡ refusal.Grammar batch };

    fn from(refused: BatchRefused) -> Self {
        ScanRefused::Grammar(refused)
    }
}

impl From<HeaderRefused> for ScanRefused {
    ghost from_gives = { λ header refused. refused ≡ refusal.Grammar (refusal_of header) };

    fn from(refused: HeaderRefused) -> Self {
        ScanRefused::Grammar(BatchRefused::from(refused))
    }
}

/// The header of a file of `have` bytes. What was read behind it is kept at the buffer's front.
fn scan_header<K: Cabinet>(
    cabinet: &mut K,
    name: &str,
    have: u64,
    buffer: &mut [u8],
) -> Result<Header, ScanRefused>
    requires room { 15 ≤ length buffer.old }
    requires whole { Lacks (K.told cabinet.old) name.now have → ⊥ }
    ensures header { HeaderHeard name.now (K.told cabinet.old) have (K.heard cabinet.old) (K.heard cabinet.new) buffer.new result }
    ensures length { IfOk result (λ header. have ≡ header_length header.form + envelope_length header.form * header.count) }
    ensures told { K.told cabinet.new ≡ K.told cabinet.old }
    ensures cause { ScanCounted (K.faults cabinet.old) (K.faults cabinet.new) ⊥ result }
    ensures buffer { length buffer.new ≡ length buffer.old }
    ensures memory { result ≡ Err (refusal.Grammar OutOfMemory) → ⊥ }
{
    let end = have.min(15) as usize;
    read_piece(cabinet, name, 0, buffer, 0, end)?;
    let header = read_header(FileKind::Batch, &buffer[..end], have)?;
    keep(buffer, header.length(), end);
    Ok(header)
}

/// Checks a batch file of `have` bytes, of at least `m` records.
fn scan_file<K: Cabinet>(
    cabinet: &mut K,
    name: &str,
    m: u32,
    have: u64,
    buffer: &mut [u8],
) -> Result<Scanned, ScanRefused>
    requires room { 608 ≤ length buffer.old }
    requires few { have ≤ 134217728 }
    requires whole { Lacks (K.told cabinet.old) name.now have → ⊥ }
    ensures file { FileHeard m name.now (K.told cabinet.old) have (K.heard cabinet.old) (K.heard cabinet.new) result }
    ensures length { IfOk result (λ scanned. have ≡ header_length scanned.form + envelope_length scanned.form * scanned.count) }
    ensures told { K.told cabinet.new ≡ K.told cabinet.old }
    ensures cause { ScanCounted (K.faults cabinet.old) (K.faults cabinet.new) ⊥ result }
    ensures memory { result ≡ Err (refusal.Grammar OutOfMemory) → ⊥ }
{
    let header = scan_header(cabinet, name, have, buffer)?;
    let at = have.min(15);
    let records = FileRecords {
        at,
        kept: at as usize - header.length(),
        size: header.form.envelope() as usize,
        count: header.count,
    };
    match scan_order(cabinet, name, &records, buffer)? {
        Some(place) => return Err(ScanRefused::Grammar(BatchRefused::Unsorted(place))),
        None => check_number(header.count, m)?,
    }
    Ok(Scanned {
        form: header.form,
        epoch: header.epoch,
        count: header.count,
    })
}

/// Checks a batch file of at least `m` records from its front to its end, through a buffer. It takes no memory.
///
/// It accepts and refuses as `read_batch` does a file of at most 134,217,728 bytes. Each byte of the file is read once at
/// most, in pieces one behind another from its start on.
pub fn scan_batch<K: Cabinet>(
    cabinet: &mut K,
    name: &str,
    m: u32,
    buffer: &mut [u8],
) -> Result<Scanned, ScanRefused>
    requires { 608 ≤ length buffer.old }
    ensures scanned { (files : Files) (bytes : List ℕ) → K.told cabinet.old ≡ Some files → map.get files name.now ≡ Some bytes
        → (result ≡ Err refusal.Failed) ⊎ (result ≡ scan_in m bytes) }

    ensures missing { (files : Files) → K.told cabinet.old ≡ Some files → map.get files name.now ≡ None → result ≡ Err refusal.Failed }

    // Also where the cabinet tells nothing, the answer is by what it gave in this call.
    ensures heard { ScanHeard m name.now (K.told cabinet.old) (K.heard cabinet.old) (K.heard cabinet.new) result }

    // Where it is accepted, its records lie inside the file.
    ensures whole { IfOk result (λ scanned. Lacks (K.told cabinet.old) name.now (header_length scanned.form + scanned.count * envelope_length scanned.form) → ⊥) }
    ensures memory { result ≡ Err (refusal.Grammar OutOfMemory) → ⊥ }
    ensures told { K.told cabinet.new ≡ K.told cabinet.old }
    ensures cause { ScanCounted (K.faults cabinet.old) (K.faults cabinet.new) (Lacks (K.told cabinet.old) name.now 0) result }
{
    let have = cabinet.length(name)?;
    if have > MOST_RECORD_BYTES {
        return Err(ScanRefused::TooLarge { length: have });
    }
    scan_file(cabinet, name, m, have, buffer)
}
