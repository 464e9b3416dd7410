//! What run and shuffle leave: their files and their lines.

ghost use Rattle.std.specs.Prelude.{◌≡◌, ◌<◌, ◌≤◌, ◌^◌, ◌+◌, ◌++◌, ◌∷◌, All, List, length, option_map};
ghost use Rattle.esa_lists.specs.Files.{Files};
ghost use Rattle.esa_refusal.specs.declared.source.Sink.TheVariants.{Output};
ghost use Rattle.esa_refusal.specs.Refusal.{numbered};
ghost use Rattle.esa_spec.specs.Histories.{lists};
ghost use Rattle.esa_command.specs.Doing.{WritesIt, WritesAll, failed_work};
ghost use Rattle.esa_command.specs.Settled.{Settles};
ghost use Rattle.esa_command.specs.Stand.{Stand, stand};
ghost use Rattle.esa_command.specs.Work.{Write};
ghost use Rattle.esa_shuffling.specs.Plan.{trace_writes};
ghost use Rattle.esa_taking.specs.RunTaken.{IsTaken, run_taken};
ghost use Rattle.esa_running.specs.RunWork.{turns_writes, records_of, FitFiles, shuffled_text, holds_text, made_text, well_work};
ghost use Rattle.esa_taking.specs.StoredTurns.{IsHistory};
ghost use Rattle.esa_taking.specs.Wanted.{sizes_in};

use esa_analyser::Analysis;
use esa_command::{print_line, settle, settle_failed};
use esa_device::{Device, Recorder};
use esa_outside::{Cabinet, Failed, Printer};
use esa_params::Access;
use esa_refusal::{End, Line, Sink, Status};
use esa_taking::{RunInput, write_turns};
use esa_trace::write_trace;

/// Writes the accesses of a shuffle, where a file is named for them.
fn save_trace<K: Cabinet>(
    cabinet: &mut K,
    name: Option<&str>,
    accesses: &[Access],
) -> Result<(), Sink>
    requires attempts { All (λ access. access.attempt < 256) accesses.now }
    requires number { length accesses.now < 2 ^ 32 }
    ensures { WritesAll (trace_writes (option_map (λ name. name.now) name.entry) accesses.now)
        (stand K.told K.faults K.heard cabinet.old) (stand K.told K.faults K.heard cabinet.new) result }
{
    match name {
        None => Ok(()),
        Some(name) => match write_trace(accesses, cabinet, name) {
            Ok(()) => Ok(()),
            Err(Failed) => Err(Sink::Trace),
        },
    }
}

/// Writes the turns of a shuffle, where a file is named for them.
fn save_turns<K: Cabinet>(
    cabinet: &mut K,
    name: Option<&str>,
    history: &[u32],
    owner: u32,
) -> Result<(), Sink>
    requires { IsHistory owner history.now }
    ensures { WritesAll (turns_writes (option_map (λ name. name.now) name.entry) (lists owner history.now))
        (stand K.told K.faults K.heard cabinet.old) (stand K.told K.faults K.heard cabinet.new) result }
{
    match name {
        None => Ok(()),
        Some(name) => match write_turns(history, owner, cabinet, name) {
            Ok(()) => Ok(()),
            Err(Failed) => Err(Sink::TurnsOut),
        },
    }
}

/// Writes how a shuffle went, where the job names files for it: its accesses, and then its turns.
fn save_records<K: Cabinet, V: Device>(
    cabinet: &mut K,
    recorder: &Recorder<V>,
    input: &RunInput,
    history: &[u32],
) -> Result<(), Sink>
    requires taken { IsTaken input.now }
    requires fits { FitFiles (sizes_in (run_taken input.now)).workers recorder.now.trace history.now }
    ensures { WritesAll (records_of (run_taken input.now) recorder.now.trace history.now)
        (stand K.told K.faults K.heard cabinet.old) (stand K.told K.faults K.heard cabinet.new) result }
{
    save_trace(cabinet, input.job.trace(), recorder.trace())?;
    save_turns(
        cabinet,
        input.job.turns_out(),
        history,
        input.plan.workers(),
    )
}

/// Writes how a shuffle went behind its output, by how that was written.
fn save_behind<K: Cabinet, V: Device>(
    cabinet: &mut K,
    recorder: &Recorder<V>,
    input: &RunInput,
    history: &[u32],
    saved: Result<(), Failed>,
) -> Result<(), Sink>
    requires taken { IsTaken input.now }
    requires fits { FitFiles (sizes_in (run_taken input.now)).workers recorder.now.trace history.now }
    ensures { (before : Stand Files) (output : Write) → output.sink ≡ Output
        → WritesIt output before (stand K.told K.faults K.heard cabinet.old) saved
        → WritesAll (output ∷ records_of (run_taken input.now) recorder.now.trace history.now) before (stand K.told K.faults K.heard cabinet.new) result }
{
    match saved {
        Ok(()) => save_records(cabinet, recorder, input, history),
        Err(Failed) => Err(Sink::Output),
    }
}

/// Adds a word and a number to a line that has room for them.
fn add(line: &mut Line, word: &str, number: u64)
    requires { length line.old + length word.now + 20 ≤ 192 }
    ensures text { line.new ≡ line.old ++ numbered word.now number }
    ensures short { length line.new ≤ length line.old + length word.now + 20 }
{
    line.word(word);
    line.number(number);
}

/// Begins the line of a shuffle that succeeded.
fn shuffled_line(attempt: u32, records: u32, forwarded: u32) -> Line
    ensures text { result ≡ shuffled_text attempt records forwarded }
    ensures short { length result ≤ 100 }
{
    let mut line = Line::new();
    add(&mut line, "ok attempt ", u64::from(attempt));
    add(&mut line, " records ", u64::from(records));
    add(&mut line, " forwarded ", u64::from(forwarded));
    line
}

/// The line of a run that succeeded.
pub(crate) fn run_line(
    attempt: u32,
    records: u32,
    forwarded: u32,
    analysis: &Analysis,
    accesses: u64,
) -> Line
    ensures { result ≡ shuffled_text attempt records forwarded ++ (holds_text analysis.now.database ++ made_text accesses) }
{
    let mut line = shuffled_line(attempt, records, forwarded);
    add(&mut line, " rows ", u64::from(analysis.rows()));
    add(&mut line, " unopened ", u64::from(analysis.unopened()));
    add(&mut line, " accesses ", accesses);
    line
}

/// The line of a shuffle that succeeded, and hands on what it forwards.
pub(crate) fn handed_on_line(attempt: u32, records: u32, forwarded: u32, accesses: u64) -> Line
    ensures { result ≡ shuffled_text attempt records forwarded ++ made_text accesses }
{
    let mut line = shuffled_line(attempt, records, forwarded);
    add(&mut line, " accesses ", accesses);
    line
}

/// How a command ends well that has one line, by how its files were written. The line is printed where they were.
fn settle_well<P: Printer>(saved: Result<(), Sink>, printer: &mut P, line: &Line) -> End
    ensures { (writes : List Write) (cabinet cabinet_now : Stand Files) → WritesAll writes cabinet cabinet_now saved
        → Settles (well_work writes line.now) cabinet cabinet_now
        (stand P.told P.faults P.heard printer.old) (stand P.told P.faults P.heard printer.new) result }
{
    match saved {
        Ok(()) => settle(Status::Ok, print_line(printer, line.as_bytes())),
        Err(sink) => End::Stopped(Status::OutsideFault(sink.role())),
    }
}

/// Does what is left of a shuffle that succeeded, by how its output was written: it writes how the shuffle went, and prints
/// its line.
pub(crate) fn work_saved<K: Cabinet, P: Printer, V: Device>(
    cabinet: &mut K,
    printer: &mut P,
    recorder: &Recorder<V>,
    input: &RunInput,
    history: &[u32],
    saved: Result<(), Failed>,
    line: &Line,
) -> End
    requires taken { IsTaken input.now }
    requires fits { FitFiles (sizes_in (run_taken input.now)).workers recorder.now.trace history.now }
    ensures { (before : Stand Files) (output : Write) → output.sink ≡ Output
        → WritesIt output before (stand K.told K.faults K.heard cabinet.old) saved
        → Settles (well_work (output ∷ records_of (run_taken input.now) recorder.now.trace history.now) line.now) before (stand K.told K.faults K.heard cabinet.new)
        (stand P.told P.faults P.heard printer.old) (stand P.told P.faults P.heard printer.new) result }
{
    let saved = save_behind(cabinet, recorder, input, history, saved);
    settle_well(saved, printer, line)
}

/// Does what is left of a shuffle that failed: it writes how it went, and prints the lines of its status.
pub(crate) fn work_failed<K: Cabinet, P: Printer, V: Device>(
    cabinet: &mut K,
    printer: &mut P,
    recorder: &Recorder<V>,
    input: &RunInput,
    history: &[u32],
    status: Status,
) -> End
    requires taken { IsTaken input.now }
    requires fits { FitFiles (sizes_in (run_taken input.now)).workers recorder.now.trace history.now }
    ensures { Settles (failed_work status (records_of (run_taken input.now) recorder.now.trace history.now))
        (stand K.told K.faults K.heard cabinet.old) (stand K.told K.faults K.heard cabinet.new)
        (stand P.told P.faults P.heard printer.old) (stand P.told P.faults P.heard printer.new) result }
{
    let saved = save_records(cabinet, recorder, input, history);
    settle_failed(status, saved, printer)
}
