//! What becomes of what is forwarded.

ghost use Rattle.std.specs.Prelude.{◌≡◌, ◌*◌, ◌≤◌, ℕ, List, length, IfOk};
ghost use Rattle.esa_job.specs.declared.command.Command.TheVariants.{Run};
ghost use Rattle.esa_job.specs.Seen.{request_of};
ghost use Rattle.esa_params.specs.Form.{inner_length};
ghost use Rattle.esa_command.specs.Settled.{Settles};
ghost use Rattle.esa_command.specs.Stand.{stand};
ghost use Rattle.esa_running.specs.declared.purpose.Purpose.TheVariants.{Count, HandOn};
ghost use Rattle.esa_running.specs.Forwarding.{AreJoined};
ghost use Rattle.esa_running.specs.Outlets.{purpose_of, HasRoom};
ghost use Rattle.esa_running.specs.Purpose.{command_for};
ghost use Rattle.esa_taking.specs.RunTaken.{IsTaken, run_taken};
ghost use Rattle.esa_running.specs.RunWork.{FitFiles, success_work};
ghost use Rattle.esa_taking.specs.Wanted.{sizes_in};

use crate::outputs::{handed_on_line, run_line, work_saved};
use crate::purpose::Purpose;
use esa_analyser::Analysis;
use esa_device::{Device, Recorder};
use esa_outside::{Cabinet, Printer};
use esa_params::{Form, Plan};
use esa_refusal::End;
use esa_taking::RunInput;
use esa_threshold::write_forward;
use std::alloc::{AllocError, Global};

/// What becomes of what is forwarded, with all memory that it takes.
#[derive(Drop)]
pub(crate) enum Outlet {
    /// Its values are counted.
    Count(Analysis),
    /// It is handed on in a file.
    HandOn,
}

/// The outlet for a purpose, with room for all records of a plan.
pub(crate) fn outlet_for(alloc: Global, purpose: Purpose, plan: &Plan) -> Result<Outlet, AllocError>
    ensures purpose { IfOk result (λ outlet. purpose_of outlet ≡ purpose) }
    ensures room { IfOk result (HasRoom plan.now) }
{
    match purpose {
        Purpose::Count => Ok(Outlet::Count(Analysis::make(alloc, plan.form(), plan.n())?)),
        Purpose::HandOn => Ok(Outlet::HandOn),
    }
}

/// What comes out of a shuffle that succeeded.
#[derive(Drop)]
pub(crate) struct Success<'a> {
    /// The good attempt.
    pub attempt: u32,
    /// The inner envelopes that are forwarded, joined.
    pub envelopes: &'a [u8],
}

/// How many inner envelopes these bytes are, joined.
fn number_of(form: Form, envelopes: &[u8]) -> u32
    requires { (n : ℕ) × (length envelopes.now ≡ inner_length form * n) × (n ≤ 262144) }
    ensures { length envelopes.now ≡ inner_length form * result }
{
    envelopes.len() as u32 / form.inner()
}

/// Counts the values of what is forwarded, and does the work of a run that succeeded.
fn work_counted<K: Cabinet, P: Printer, V: Device>(
    cabinet: &mut K,
    printer: &mut P,
    recorder: &Recorder<V>,
    input: &RunInput,
    done: &Success<'_>,
    history: &[u32],
    mut analysis: Analysis,
) -> End
    requires taken { IsTaken input.now }
    requires command { (request_of input.now.job).command ≡ Run }
    requires form { analysis.form ≡ input.now.batch.form }
    requires records { analysis.room ≡ input.now.batch.count }
    requires joined { (envelopes : List (List ℕ)) × AreJoined (run_taken input.now) envelopes done.now.envelopes.now }
    requires fits { FitFiles (sizes_in (run_taken input.now)).workers recorder.now.trace history.now }
    ensures { (envelopes : List (List ℕ)) → AreJoined (run_taken input.now) envelopes done.now.envelopes.now
        → Settles (success_work Count (run_taken input.now) done.now.attempt envelopes recorder.now.trace history.now)
        (stand K.told K.faults K.heard cabinet.old) (stand K.told K.faults K.heard cabinet.new)
        (stand P.told P.faults P.heard printer.old) (stand P.told P.faults P.heard printer.new) result }
{
    analysis.count(&input.inner_keys(), done.envelopes);
    let saved = analysis.write(cabinet, input.job.output());
    let number = number_of(input.plan.form(), done.envelopes);
    let accesses = recorder.trace().len() as u64;
    let line = run_line(done.attempt, input.batch.count, number, &analysis, accesses);
    work_saved(cabinet, printer, recorder, input, history, saved, &line)
}

/// Hands on what is forwarded, and does the work of a shuffle that succeeded.
fn work_handed_on<K: Cabinet, P: Printer, V: Device>(
    cabinet: &mut K,
    printer: &mut P,
    recorder: &Recorder<V>,
    input: &RunInput,
    done: &Success<'_>,
    history: &[u32],
) -> End
    requires taken { IsTaken input.now }
    requires joined { (envelopes : List (List ℕ)) × AreJoined (run_taken input.now) envelopes done.now.envelopes.now }
    requires fits { FitFiles (sizes_in (run_taken input.now)).workers recorder.now.trace history.now }
    ensures { (envelopes : List (List ℕ)) → AreJoined (run_taken input.now) envelopes done.now.envelopes.now
        → Settles (success_work HandOn (run_taken input.now) done.now.attempt envelopes recorder.now.trace history.now)
        (stand K.told K.faults K.heard cabinet.old) (stand K.told K.faults K.heard cabinet.new)
        (stand P.told P.faults P.heard printer.old) (stand P.told P.faults P.heard printer.new) result }
{
    let form = input.plan.form();
    let epoch = input.batch.epoch;
    let number = number_of(form, done.envelopes);
    let saved = write_forward(
        form,
        epoch,
        number,
        done.envelopes,
        cabinet,
        input.job.output(),
    );
    let accesses = recorder.trace().len() as u64;
    let line = handed_on_line(done.attempt, input.batch.count, number, accesses);
    work_saved(cabinet, printer, recorder, input, history, saved, &line)
}

/// Does the work of a shuffle that succeeded.
pub(crate) fn work_forwarded<K: Cabinet, P: Printer, V: Device>(
    cabinet: &mut K,
    printer: &mut P,
    recorder: &Recorder<V>,
    input: &RunInput,
    done: &Success<'_>,
    history: &[u32],
    outlet: Outlet,
) -> End
    requires taken { IsTaken input.now }
    requires command { (request_of input.now.job).command ≡ command_for (purpose_of outlet) }
    requires room { HasRoom (sizes_in (run_taken input.now)) outlet }
    requires joined { (envelopes : List (List ℕ)) × AreJoined (run_taken input.now) envelopes done.now.envelopes.now }
    requires fits { FitFiles (sizes_in (run_taken input.now)).workers recorder.now.trace history.now }
    ensures { (envelopes : List (List ℕ)) → AreJoined (run_taken input.now) envelopes done.now.envelopes.now
        → Settles (success_work (purpose_of outlet) (run_taken input.now) done.now.attempt envelopes recorder.now.trace history.now)
        (stand K.told K.faults K.heard cabinet.old) (stand K.told K.faults K.heard cabinet.new)
        (stand P.told P.faults P.heard printer.old) (stand P.told P.faults P.heard printer.new) result }
{
    match outlet {
        Outlet::Count(analysis) => {
            work_counted(cabinet, printer, recorder, input, done, history, analysis)
        }
        Outlet::HandOn => work_handed_on(cabinet, printer, recorder, input, done, history),
    }
}
