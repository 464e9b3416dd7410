//! Reading a batch file that lies in memory.

ghost use Rattle.std.specs.Prelude.{◌≡◌, ◌⊎◌, ◌*◌, ◌≤◌, Ok, Err, length, IfOk, MatchResult};
ghost use Rattle.esa_header.specs.Pieces.{pieces};
ghost use Rattle.esa_params.specs.Form.{envelope_length};
ghost use Rattle.esa_batcher.specs.declared.refused.BatchRefused.TheVariants.{OutOfMemory};
ghost use Rattle.esa_batcher.specs.Batched.{Batched, IsBatch, batch_bytes};
ghost use Rattle.esa_batcher.specs.Reading.{number_in, order_in, batch_in};

use crate::batch::Batch;
use crate::envelopes::Envelopes;
use crate::refused::BatchRefused;
use crate::rising::first_fall;
use esa_header::{FileKind, read_header};
use esa_params::{Form, MOST_RECORDS};
use std::alloc::Global;

/// Refuses a number of records that is below `m`, or else above that of a batch.
pub(crate) fn check_number(count: u32, m: u32) -> Result<(), BatchRefused>
    ensures { result ≡ number_in m count }
{
    if count < m {
        return Err(BatchRefused::TooFew { n: count, m });
    }
    if count > MOST_RECORDS {
        return Err(BatchRefused::TooMany { n: count });
    }
    Ok(())
}

/// Refuses records for the first that is below the one before it, or else for their number.
fn check_records(records: &[u8], form: Form, count: u32, m: u32) -> Result<(), BatchRefused>
    requires { length records.now ≡ envelope_length form * count }
    ensures { result ≡ order_in m (pieces (envelope_length form) count records.now) }
{
    match first_fall(records, form.envelope() as usize, count, 0) {
        Some(place) => Err(BatchRefused::Unsorted(place)),
        None => check_number(count, m),
    }
}

/// The batch in a file, or the first test that the file fails.
fn tested_batch(alloc: Global, bytes: &[u8], m: u32) -> Result<Batch, BatchRefused>
    ensures { MatchResult result (λ batch. batch_in m bytes.now ≡ Ok batch)
        (λ refused. (refused ≡ OutOfMemory) ⊎ (batch_in m bytes.now ≡ Err refused)) }
{
    let header = read_header(FileKind::Batch, bytes, bytes.len() as u64)?;
    let (_, records) = bytes.split_at(header.length());
    check_records(records, header.form, header.count, m)?;
    let envelopes = Envelopes::copied(alloc, header.form, records)?;
    Ok(Batch {
        envelopes,
        epoch: header.epoch,
    })
}

/// Reads a batch file of at least `m` records. The refusal is the first test that it fails.
pub fn read_batch(alloc: Global, bytes: &[u8], m: u32) -> Result<Batch, BatchRefused>
    ensures first_refusal { MatchResult result (λ batch. batch_in m bytes.now ≡ Ok batch)
        (λ refused. (refused ≡ OutOfMemory) ⊎ (batch_in m bytes.now ≡ Err refused)) }

    // What is accepted is the one spelling of what was read.
    ensures spelled { IfOk result (λ batch. IsBatch batch × (m ≤ length batch.list) × (bytes.now ≡ batch_bytes batch)) }

    // The file of each such batch is accepted, but for want of memory.
    ensures accepts { (batch : Batched) → IsBatch batch → m ≤ length batch.list → bytes.now ≡ batch_bytes batch
        → MatchResult result (λ read. read ≡ batch) (λ refused. refused ≡ OutOfMemory) }
{
    tested_batch(alloc, bytes, m)
}
