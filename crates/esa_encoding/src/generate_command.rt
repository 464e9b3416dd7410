//! The command gen: made up reports.

ghost use Rattle.std.specs.Prelude.{◌≡◌, ◌≤◌, OnOk, OnErr};
ghost use Rattle.esa_outside.specs.Cause.{HasCause};
ghost use Rattle.esa_page.specs.Underway.{IsWhole, IsLeft};
ghost use Rattle.esa_page.specs.Writing.{HasWritten, HasBroken};
ghost use Rattle.esa_command.specs.Ends.{Ends};
ghost use Rattle.esa_command.specs.Settled.{Settles};
ghost use Rattle.esa_command.specs.Stand.{stand};
ghost use Rattle.esa_encoding.specs.Generate.{next_state, report_line, generated, generated_text, generate_work, generate_steps};

use esa_command::{settle_one, take_job};
use esa_job::Command;
use esa_outside::{Cabinet, Failed, Printer};
use esa_page::Page;
use esa_refusal::{End, Line, Sink, Status, add_numbered};
use std::alloc::Global;

/// The moment before that of the first report.
const START: u64 = 1_700_000_000;

/// The state after a state of the generator: a linear congruence modulo 2^64.
fn next_state(state: u64) -> u64
    ensures { result ≡ next_state state }
{
    state
        .wrapping_mul(6_364_136_223_846_793_005)
        .wrapping_add(1_442_695_040_888_963_407)
}

/// The report of a number, which counts from 1, and of the generator's state at it, with its newline.
fn report_line(number: u32, state: u64, crowds: u32) -> Line
    requires { 1 ≤ crowds }
    ensures { result ≡ report_line crowds number state }
{
    let mut line = Line::new();
    line.number(START + u64::from(number));
    add_numbered(&mut line, "\ts", (state >> 33) % 1000);
    add_numbered(&mut line, "\tc", (state >> 40) % u64::from(crowds));
    add_numbered(&mut line, "\tv", (state >> 48) % 7);
    line.word("\n");
    line
}

/// Writes the reports of the numbers from 1 on into a file, which starts anew. It takes no memory.
fn write_reports<K: Cabinet>(
    cabinet: &mut K,
    name: &str,
    number: u64,
    crowds: u32,
    records: u32,
) -> Result<(), Failed>
    requires { 1 ≤ crowds }
    ensures whole { OnOk result (IsWhole (K.told cabinet.old) name.now (generated number crowds records) (K.told cabinet.new)) }

    // A failed call leaves the file as it was, or a front of the reports.
    ensures left { OnErr result (IsLeft (K.told cabinet.old) name.now (generated number crowds records) (K.told cabinet.new)) }
    ensures heard { OnOk result (HasWritten (K.heard cabinet.old) name.now (generated number crowds records) (K.heard cabinet.new)) }
    ensures heard_broken { OnErr result (HasBroken (K.heard cabinet.old) name.now (generated number crowds records) (K.heard cabinet.new)) }
    ensures cause { HasCause (K.faults cabinet.old) (K.faults cabinet.new) ⊥ result }
{
    let mut page = Page::start(cabinet, name)?;
    let mut state = number;
    for done in 0..records {
        state = next_state(state);
        let line = report_line(done + 1, state, crowds);
        page.put(cabinet, name, line.as_bytes())?;
    }
    page.finish(cabinet, name)
}

/// The line that tells how many reports were made.
fn generated_line(records: u32) -> Line
    ensures { result ≡ generated_text records }
{
    let mut line = Line::new();
    add_numbered(&mut line, "generated ", u64::from(records));
    line
}

/// Writes the reports and prints how many they are.
fn work_generate<K: Cabinet, P: Printer>(
    cabinet: &mut K,
    printer: &mut P,
    output: &str,
    number: u64,
    crowds: u32,
    records: u32,
) -> End
    requires { 1 ≤ crowds }
    ensures { Settles (generate_work output.now number crowds records)
        (stand K.told K.faults K.heard cabinet.old) (stand K.told K.faults K.heard cabinet.new)
        (stand P.told P.faults P.heard printer.old) (stand P.told P.faults P.heard printer.new) result }
{
    let saved = write_reports(cabinet, output, number, crowds, records);
    settle_one(saved, Sink::Output, printer, &generated_line(records))
}

/// Makes up reports of a few crowds and values, writes them, and prints how many they are.
pub fn generate<K: Cabinet, P: Printer>(
    alloc: Global,
    cabinet: &mut K,
    printer: &mut P,
    crew_allowed: bool,
    name: &str,
) -> End
    ensures { Ends (generate_steps crew_allowed name.now)
        (stand K.told K.faults K.heard cabinet.old) (stand K.told K.faults K.heard cabinet.new)
        (stand P.told P.faults P.heard printer.old) (stand P.told P.faults P.heard printer.new) result }
{
    match take_job(alloc, cabinet, Command::Gen, crew_allowed, name) {
        Ok(job) => work_generate(
            cabinet,
            printer,
            job.output(),
            job.number(),
            job.crowds(),
            job.records(),
        ),
        Err(stop) => End::Stopped(Status::from(stop)),
    }
}
