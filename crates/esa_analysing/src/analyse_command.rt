//! The command analyse: a forward file becomes a database.

ghost use Rattle.std.specs.Prelude.{◌≡◌, IfOk};
ghost use Rattle.esa_job.specs.Seen.{Needs};
ghost use Rattle.esa_analysing.specs.Analyse.{analyse_steps, database_work, number_of, counted_by, AreWhole};
ghost use Rattle.esa_analysing.specs.AnalyseTaken.{analyse_taken, analyse_counted};
ghost use Rattle.esa_command.specs.Ends.{Ends};
ghost use Rattle.esa_command.specs.Judged.{Judged};
ghost use Rattle.esa_command.specs.Settled.{Settles};
ghost use Rattle.esa_command.specs.Stand.{stand};

use crate::forwarding::take_forward;
use crate::lines::counted_line;
use esa_analyser::Analysis;
use esa_command::{settle_one, take_job, take_keys};
use esa_envelope::{Label, record_keys};
use esa_job::{Command, Job, JobField};
use esa_outside::{Cabinet, Printer};
use esa_params::Form;
use esa_refusal::{End, Sink, Status, Stop};
use esa_threshold::Forwarded;
use std::alloc::{AllocError, Global};

/// What analyse takes in.
#[derive(Drop)]
pub struct AnalyseInput {
    pub job: Job,
    /// The inner master of the keys file.
    pub master: [u8; 32],
    pub forwarded: Forwarded,
}

/// What analyse counted.
#[derive(Drop)]
pub struct AnalyseCount {
    pub job: Job,
    pub analysis: Analysis,
}

/// Takes in the job, its keys and its forward file.
fn take_analyse<K: Cabinet>(
    alloc: Global,
    cabinet: &mut K,
    crew_allowed: bool,
    name: &str,
) -> Result<AnalyseInput, Stop>
    ensures judged { Judged 0 6 analyse_taken (analyse_steps crew_allowed name.now)
        (stand K.told K.faults K.heard cabinet.old) (stand K.told K.faults K.heard cabinet.new) result }
    ensures output { IfOk result (λ input. Needs input.job JobField.Output) }
    ensures whole { IfOk result (λ input. AreWhole input.forwarded) }
{
    let job = take_job(alloc, cabinet, Command::Analyse, crew_allowed, name)?;
    let ring = take_keys(alloc, cabinet, Command::Analyse, false, &job)?;
    let forwarded = take_forward(alloc, cabinet, Command::Analyse, &job)?;
    Ok(AnalyseInput {
        job,
        master: ring.inner(),
        forwarded,
    })
}

/// How many envelopes were handed on.
fn number(forwarded: &Forwarded) -> u32
    requires { AreWhole forwarded.now }
    ensures { result ≡ number_of forwarded.now }
{
    let length = forwarded.envelopes.bytes().len();
    match forwarded.form {
        Form::One => (length / 104) as u32,
        Form::Two => (length / 232) as u32,
    }
}

/// Counts the envelopes.
fn count(alloc: Global, master: &[u8; 32], forwarded: &Forwarded) -> Result<Analysis, AllocError>
    requires { AreWhole forwarded.now }
    ensures form { IfOk result (λ analysis. analysis.form ≡ forwarded.now.form) }
    ensures database { IfOk result (λ analysis. analysis.database ≡ counted_by master.now forwarded.now) }
{
    let mut analysis = Analysis::make(alloc, forwarded.form, number(forwarded))?;
    let keys = record_keys(forwarded.form, forwarded.epoch, master, Label::Inner);
    analysis.count(&keys, forwarded.envelopes.bytes());
    Ok(analysis)
}

/// Takes all in, and counts.
fn count_analyse<K: Cabinet>(
    alloc: Global,
    cabinet: &mut K,
    crew_allowed: bool,
    name: &str,
) -> Result<AnalyseCount, Stop>
    ensures judged { Judged 0 6 analyse_counted (analyse_steps crew_allowed name.now)
        (stand K.told K.faults K.heard cabinet.old) (stand K.told K.faults K.heard cabinet.new) result }
    ensures output { IfOk result (λ count. Needs count.job JobField.Output) }
{
    let AnalyseInput {
        job,
        master,
        forwarded,
    } = take_analyse(alloc, cabinet, crew_allowed, name)?;
    let analysis = count(alloc, &master, &forwarded)?;
    Ok(AnalyseCount { job, analysis })
}

/// Writes the database and prints what it holds.
fn work_analyse<K: Cabinet, P: Printer>(
    cabinet: &mut K,
    printer: &mut P,
    output: &str,
    analysis: &Analysis,
) -> End
    ensures { Settles (database_work output.now analysis.now.form analysis.now.database)
        (stand K.told K.faults K.heard cabinet.old) (stand K.told K.faults K.heard cabinet.new)
        (stand P.told P.faults P.heard printer.old) (stand P.told P.faults P.heard printer.new) result }
{
    let saved = analysis.write(cabinet, output);
    let line = counted_line(analysis.rows(), analysis.unopened());
    settle_one(saved, Sink::Output, printer, &line)
}

/// Counts what a shuffler handed on into a database, writes it, and prints what it holds.
pub fn analyse<K: Cabinet, P: Printer>(
    alloc: Global,
    cabinet: &mut K,
    printer: &mut P,
    crew_allowed: bool,
    name: &str,
) -> End
    ensures { Ends (analyse_steps crew_allowed name.now)
        (stand K.told K.faults K.heard cabinet.old) (stand K.told K.faults K.heard cabinet.new)
        (stand P.told P.faults P.heard printer.old) (stand P.told P.faults P.heard printer.new) result }
{
    match count_analyse(alloc, cabinet, crew_allowed, name) {
        Ok(count) => work_analyse(cabinet, printer, count.job.output(), &count.analysis),
        Err(stop) => End::Stopped(Status::from(stop)),
    }
}
