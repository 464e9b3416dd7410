//! Readers that a case calls by themselves: how the reading of a file ends.

ghost use Rattle.std.specs.Prelude.{◌≡◌, ◌⊎◌, ℕ, List, None, Some};
ghost use Rattle.std.specs.FinMap as map;
ghost use Rattle.esa_job.specs.Refusal.{job_of};
ghost use Rattle.esa_job.specs.Keys.{keys_of};
ghost use Rattle.esa_job.specs.Drops.{drops_of};
ghost use Rattle.esa_batcher.specs.Reading.{batch_in};
ghost use Rattle.esa_refusal.specs.Stop.{stop_of_job, stop_of_keys, stop_of_batch};
ghost use Rattle.esa_refusal.specs.declared.status.Status.TheVariants.{Usage, OutOfMemory};
ghost use Rattle.esa_case_parts.specs.Readers.{Ends, status_by, stop_of_drops};

use esa_batcher::{BatchRefused, ScanRefused, read_batch, scan_batch};
use esa_job::{Command, Drops, DropsRefused, Job, JobRefused, KeyRing, KeysRefused};
use esa_outside::MemCabinet;
use esa_refusal::{Refusal, Status};
use std::alloc::Global;

/// What is read.
#[derive(Clone, Copy)]
pub enum Reader {
    /// A job of a command, where workers may run or may not.
    Job { command: Command, crew: bool },
    /// The keys of a command, whose values are sent whole or as shares.
    Keys { command: Command, shares: bool },
    /// The drops of a shuffle.
    Drops,
    /// A batch of so many records at least, by both readers of batches.
    Batch { m: u32 },
}

/// How the reading of a file ends. With no such file it ends as a wrong command line.
pub fn read(alloc: Global, reader: Reader, file: &str, cabinet: &mut MemCabinet) -> Status
    ensures absent { map.get cabinet.old.files file.now ≡ None → result ≡ Usage }
    ensures read { (bytes : List ℕ) → map.get cabinet.old.files file.now ≡ Some bytes
        → (result ≡ OutOfMemory) ⊎ Ends reader file.now bytes result }
    ensures files { cabinet.new.files ≡ cabinet.old.files }
{
    let Some(bytes) = cabinet.file(file) else {
        return Status::Usage;
    };
    match reader {
        Reader::Job { command, crew } => status_of_job(alloc, command, crew, file, bytes),
        Reader::Keys { command, shares } => status_of_keys(alloc, command, shares, bytes),
        Reader::Drops => status_of_drops(bytes),
        Reader::Batch { m } => {
            let whole = status_of_whole(alloc, m, bytes);
            agreed(whole, status_of_scan(cabinet, file, m))
        }
    }
}

/// How the reading of a job ends.
fn status_of_job(alloc: Global, command: Command, crew: bool, file: &str, bytes: &[u8]) -> Status
    ensures { (result ≡ OutOfMemory) ⊎ (result ≡ status_by stop_of_job (job_of command crew file.now bytes.now)) }
{
    match Job::read(alloc, command, crew, file, bytes) {
        Ok(_) => Status::Ok,
        Err(JobRefused::Field(field)) => Status::Refused(Refusal::Job(field)),
        Err(JobRefused::Params(field)) => Status::Refused(Refusal::Params(field)),
        Err(JobRefused::OutOfMemory) => Status::OutOfMemory,
    }
}

/// How the reading of keys ends.
fn status_of_keys(alloc: Global, command: Command, shares: bool, bytes: &[u8]) -> Status
    ensures { (result ≡ OutOfMemory) ⊎ (result ≡ status_by stop_of_keys (keys_of command shares bytes.now)) }
{
    match KeyRing::read(alloc, command, shares, bytes) {
        Ok(_) => Status::Ok,
        Err(KeysRefused::Field(field)) => Status::Refused(Refusal::Keys(field)),
        Err(KeysRefused::OutOfMemory) => Status::OutOfMemory,
    }
}

/// How the reading of drops ends.
fn status_of_drops(bytes: &[u8]) -> Status
    ensures { result ≡ status_by stop_of_drops (drops_of bytes.now) }
{
    match Drops::read(bytes) {
        Ok(_) => Status::Ok,
        Err(DropsRefused::Line(line)) => Status::Refused(Refusal::Drops(line)),
    }
}

/// How the reading of a batch ends by the reader that keeps it.
fn status_of_whole(alloc: Global, m: u32, bytes: &[u8]) -> Status
    ensures { (result ≡ OutOfMemory) ⊎ (result ≡ status_by stop_of_batch (batch_in m bytes.now)) }
{
    match read_batch(alloc, bytes, m) {
        Ok(_) => Status::Ok,
        Err(BatchRefused::OutOfMemory) => Status::OutOfMemory,
        Err(refused) => Status::Refused(Refusal::Batch(refused)),
    }
}

/// How the reading of a batch ends by the reader that only looks through it.
fn status_of_scan(cabinet: &mut MemCabinet, file: &str, m: u32) -> Status
    ensures { cabinet.new.files ≡ cabinet.old.files }
{
    let mut buffer = [0; 608];
    match scan_batch(cabinet, file, m, &mut buffer) {
        Ok(_) => Status::Ok,
        Err(ScanRefused::Grammar(BatchRefused::OutOfMemory)) => Status::OutOfMemory,
        Err(ScanRefused::Grammar(refused)) => Status::Refused(Refusal::Batch(refused)),
        Err(_) => Status::OutOfMemory,
    }
}

/// How the reading of a batch ends, where both readers answer the same.
fn agreed(whole: Status, scan: Status) -> Status
    ensures { (result ≡ whole) ⊎ (result ≡ Usage) }
{
    if whole != scan {
        return Status::Usage;
    }
    whole
}
