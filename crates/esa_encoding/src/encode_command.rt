//! The command encode: reports become submissions.

ghost use Rattle.std.specs.Prelude.{◌≡◌, ◌⊎◌, Ok, Err, IsSome, IfOk, MatchResult, true};
ghost use Rattle.esa_job.specs.declared.command.Command.TheVariants as command;
ghost use Rattle.esa_job.specs.Seen.{request_of, Needs};
ghost use Rattle.esa_job.specs.Keys.{needs_key, key_of};
ghost use Rattle.esa_encoder.specs.declared.submission.EncodeRefused.TheVariants as refusal;
ghost use Rattle.esa_command.specs.Ends.{Ends};
ghost use Rattle.esa_command.specs.Judged.{Judged};
ghost use Rattle.esa_command.specs.Settled.{Settles};
ghost use Rattle.esa_command.specs.Stand.{stand};
ghost use Rattle.esa_command.specs.Taking.{keys_file};
ghost use Rattle.esa_encoding.specs.Encode.{sealing_keys, has_shares, encoded_by, reports_file, encoded_text, encode_work, encode_steps};
ghost use Rattle.esa_encoding.specs.EncodeTaken.{sealed_as, encode_taken};

use esa_bytes::line_count;
use esa_command::{form_of, read_file, settle_one, take_job, take_keys, write_bytes};
use esa_encoder::{EncodeRefused, encode_by};
use esa_envelope::{Keys, Label, record_keys};
use esa_job::{Command, Job, JobField, KeyField, KeyRing};
use esa_outside::{Cabinet, Printer};
use esa_refusal::{End, Line, Sink, Source, Status, Stop, add_numbered};
use esa_shares::ShareShaper;
use std::alloc::Global;

/// Reports that are sealed.
#[derive(Drop)]
pub struct Sealed {
    /// The lines of submissions.
    pub submissions: Vec<u8>,
    /// Their number.
    pub lines: u64,
}

/// What encode takes in.
#[derive(Drop)]
pub struct EncodeInput {
    pub job: Job,
    pub sealed: Sealed,
}

/// The keys that seal the envelopes of a label, for the form and the epoch that a job asks for.
fn sealing_keys(job: &Job, master: &[u8; 32], label: Label) -> Keys
    ensures { result ≡ sealing_keys (request_of job.now) master.now label }
{
    record_keys(form_of(job), job.epoch().unwrap_or(0), master, label)
}

/// The submissions of reports, by what a job asks for and under its keys.
fn seal(alloc: Global, job: &Job, ring: &KeyRing, reports: &[u8]) -> Result<Vec<u8>, EncodeRefused>
    requires command { (request_of job.now).command ≡ command.Encode }
    requires outer { IsSome ring.now.outer }
    requires inner { IsSome ring.now.inner }
    requires share { has_shares (request_of job.now) ≡ true → IsSome ring.now.share }
    ensures { MatchResult result (λ bytes. encoded_by (request_of job.now) ring.now reports.now ≡ Ok bytes.items)
        (λ refused. (refused ≡ refusal.OutOfMemory) ⊎ (encoded_by (request_of job.now) ring.now reports.now ≡ Err refused)) }
{
    let outer = sealing_keys(job, &ring.outer(), Label::Outer);
    let inner = sealing_keys(job, &ring.inner(), Label::Inner);
    let form = form_of(job);
    let base = job.nonce_base();
    match job.shares() {
        Some(t) => {
            let shaper = ShareShaper::make(t, ring.share());
            encode_by(alloc, form, reports, &outer, &inner, base, &shaper)
        }
        None => esa_encoder::encode(alloc, form, reports, &outer, &inner, base),
    }
}

/// Reads the reports of a job and seals them.
fn take_reports<K: Cabinet>(
    alloc: Global,
    cabinet: &mut K,
    job: &Job,
    ring: &KeyRing,
) -> Result<Sealed, Stop>
    requires command { (request_of job.now).command ≡ command.Encode }
    requires outer { IsSome ring.now.outer }
    requires inner { IsSome ring.now.inner }
    requires share { has_shares (request_of job.now) ≡ true → IsSome ring.now.share }
    ensures { Judged 4 5 sealed_as (reports_file (request_of job.now) ring.now)
        (stand K.told K.faults K.heard cabinet.old) (stand K.told K.faults K.heard cabinet.new) result }
{
    let reports = read_file(alloc, cabinet, Command::Encode, Source::Input, job.input())?;
    let lines = line_count(&reports);
    let submissions = seal(alloc, job, ring, &reports)?;
    Ok(Sealed { submissions, lines })
}

/// Reads the keys of a job. One that asks for shares needs a key that they are made from.
fn take_ring<K: Cabinet>(alloc: Global, cabinet: &mut K, job: &Job) -> Result<KeyRing, Stop>
    requires { (request_of job.now).command ≡ command.Encode }
    ensures judged { Judged 1 2 (λ ring. ring) (keys_file command.Encode (has_shares (request_of job.now)) (request_of job.now))
        (stand K.told K.faults K.heard cabinet.old) (stand K.told K.faults K.heard cabinet.new) result }
    ensures needed { IfOk result (λ ring. (key : KeyField)
        → needs_key command.Encode (has_shares (request_of job.now)) key ≡ true → IsSome (key_of ring key)) }
{
    take_keys(alloc, cabinet, Command::Encode, job.shares().is_some(), job)
}

/// Takes in the job, its keys and its reports.
fn take_encode<K: Cabinet>(
    alloc: Global,
    cabinet: &mut K,
    crew_allowed: bool,
    name: &str,
) -> Result<EncodeInput, Stop>
    ensures judged { Judged 0 6 encode_taken (encode_steps crew_allowed name.now)
        (stand K.told K.faults K.heard cabinet.old) (stand K.told K.faults K.heard cabinet.new) result }
    ensures output { IfOk result (λ input. Needs input.job JobField.Output) }
{
    let job = take_job(alloc, cabinet, Command::Encode, crew_allowed, name)?;
    let ring = take_ring(alloc, cabinet, &job)?;
    let sealed = take_reports(alloc, cabinet, &job, &ring)?;
    Ok(EncodeInput { job, sealed })
}

/// The line that tells how many reports were encoded.
fn encoded_line(lines: u64) -> Line
    ensures { result ≡ encoded_text lines }
{
    let mut line = Line::new();
    add_numbered(&mut line, "encoded ", lines);
    line
}

/// Writes the submissions and prints how many they are.
fn work_encode<K: Cabinet, P: Printer>(
    cabinet: &mut K,
    printer: &mut P,
    output: &str,
    submissions: &[u8],
    lines: u64,
) -> End
    ensures { Settles (encode_work output.now submissions.now lines)
        (stand K.told K.faults K.heard cabinet.old) (stand K.told K.faults K.heard cabinet.new)
        (stand P.told P.faults P.heard printer.old) (stand P.told P.faults P.heard printer.new) result }
{
    let saved = write_bytes(cabinet, output, submissions);
    settle_one(saved, Sink::Output, printer, &encoded_line(lines))
}

/// Seals reports, writes the submissions, and prints how many they are.
pub fn encode<K: Cabinet, P: Printer>(
    alloc: Global,
    cabinet: &mut K,
    printer: &mut P,
    crew_allowed: bool,
    name: &str,
) -> End
    ensures { Ends (encode_steps crew_allowed name.now)
        (stand K.told K.faults K.heard cabinet.old) (stand K.told K.faults K.heard cabinet.new)
        (stand P.told P.faults P.heard printer.old) (stand P.told P.faults P.heard printer.new) result }
{
    match take_encode(alloc, cabinet, crew_allowed, name) {
        Ok(input) => work_encode(
            cabinet,
            printer,
            input.job.output(),
            &input.sealed.submissions,
            input.sealed.lines,
        ),
        Err(stop) => End::Stopped(Status::from(stop)),
    }
}
