//! The work of a command that shuffles a batch, by how the shuffle ended.

ghost use Rattle.std.specs.Prelude.{◌≡◌, ◌+◌, ◌≤◌, ℕ, List, length, Some};
ghost use Rattle.esa_job.specs.Seen.{request_of};
ghost use Rattle.esa_outside.specs.declared.Role.TheVariants.{Input};
ghost use Rattle.esa_params.specs.Slots.{greatest_trace};
ghost use Rattle.esa_refusal.specs.declared.status.Status.TheVariants.{OutsideFault};
ghost use Rattle.esa_refusal.specs.Failures.{verdicts_of};
ghost use Rattle.esa_shuffle.specs.Runs.{seen_of};
ghost use Rattle.esa_command.specs.Doing.{failed_work};
ghost use Rattle.esa_command.specs.Settled.{Settles};
ghost use Rattle.esa_command.specs.Stand.{stand};
ghost use Rattle.esa_command.specs.Work.{Work};
ghost use Rattle.esa_running.specs.ByCrew.{IsByCrew, uncut_by};
ghost use Rattle.esa_running.specs.ComingOut.{Became, IsMadeOf};
ghost use Rattle.esa_running.specs.Outlets.{purpose_of, HasRoom};
ghost use Rattle.esa_running.specs.Purpose.{command_for};
ghost use Rattle.esa_running.specs.RunOwes.{EndsShuffle, HasEnded, where_made};
ghost use Rattle.esa_taking.specs.RunTaken.{IsTaken, run_taken};
ghost use Rattle.esa_running.specs.RunWork.{FitFiles, records_of};
ghost use Rattle.esa_taking.specs.Wanted.{sizes_in};

use crate::outputs::work_failed;
use crate::working::{Store, work_shuffled};
use esa_command::settle_failed;
use esa_device::{Device, Recorder};
use esa_floor::Outcome;
use esa_outside::{Cabinet, Printer, Role};
use esa_params::Plan;
use esa_refusal::{DeviceAt, End, Failures, Status};
use esa_taking::RunInput;

/// Does what is left where the batch couldn't be read in the load. Where no access was made, nothing is written.
fn work_unloaded<K: Cabinet, P: Printer, V: Device>(
    cabinet: &mut K,
    printer: &mut P,
    recorder: &Recorder<V>,
    input: &RunInput,
    history: &[u32],
) -> End
    requires taken { IsTaken input.now }
    requires fits { FitFiles (sizes_in (run_taken input.now)).workers recorder.now.trace history.now }
    ensures { Settles (failed_work (OutsideFault Input) (where_made recorder.now.trace (records_of (run_taken input.now) recorder.now.trace history.now)))
        (stand K.told K.faults K.heard cabinet.old) (stand K.told K.faults K.heard cabinet.new)
        (stand P.told P.faults P.heard printer.old) (stand P.told P.faults P.heard printer.new) result }
{
    let status = Status::OutsideFault(Role::Input);
    if recorder.trace().is_empty() {
        settle_failed(status, Ok(()), printer)
    } else {
        work_failed(cabinet, printer, recorder, input, history, status)
    }
}

/// The failures of a shuffle each of whose attempts failed.
fn failures_of(plan: &Plan, failures: &esa_shuffle::Failures) -> Failures
    requires { length failures.now ≤ plan.now.attempts }
    ensures { verdicts_of result ≡ failures.now }
{
    let _attempts = plan.attempts();
    Failures::of(failures.verdicts())
}

/// Does the work of a command that shuffles a batch, by the outcome of the shuffle.
pub(crate) fn work_ended<K: Cabinet, P: Printer, V: Device>(
    cabinet: &mut K,
    printer: &mut P,
    recorder: &mut Recorder<V>,
    input: &RunInput,
    outcome: Outcome,
    failures: &esa_shuffle::Failures,
    history: &[u32],
    store: Store,
) -> End
    requires taken { IsTaken input.now }
    requires command { (request_of input.now.job).command ≡ command_for (purpose_of store.outlet) }
    requires tables { store.tables.plan ≡ input.now.plan }
    requires outlet { HasRoom input.now.plan store.outlet }
    requires ready { recorder.old.plan ≡ Some input.now.plan }
    requires room { greatest_trace input.now.plan ≤ length recorder.old.trace + recorder.old.room }
    requires fits { FitFiles (sizes_in (run_taken input.now)).workers recorder.old.trace history.now }
    requires ends { (device : ℕ) × (batch : ℕ) × EndsShuffle (run_taken input.now) (seen_of V.faults device batch recorder.old history.now (K.faults cabinet.old))
        recorder.old.last failures.now outcome }
    ensures works { (device batch : ℕ) (given : List ℕ) → EndsShuffle (run_taken input.now) (seen_of V.faults device batch recorder.old history.now (K.faults cabinet.old))
        recorder.old.last failures.now outcome
        → IsMadeOf (run_taken input.now) history.now recorder.old.log outcome given
        → (work : Work) × HasEnded (purpose_of store.outlet) V.told V.faults (run_taken input.now) given
        (seen_of V.faults device batch recorder.new history.now (K.faults cabinet.old)) recorder.new work
        × Became (run_taken input.now) given history.now recorder.new.log work.ended
        × IsByCrew (run_taken input.now) history.now (uncut_by work.ended)
        × Settles work (stand K.told K.faults K.heard cabinet.old) (stand K.told K.faults K.heard cabinet.new)
        (stand P.told P.faults P.heard printer.old) (stand P.told P.faults P.heard printer.new) result }
    ensures plan { recorder.new.plan ≡ recorder.old.plan }
{
    match outcome {
        Outcome::Shuffled { attempt } => {
            work_shuffled(cabinet, printer, recorder, input, attempt, history, store)
        }
        Outcome::Overflow => {
            let status = Status::Overflow(failures_of(&input.plan, failures));
            work_failed(cabinet, printer, recorder, input, history, status)
        }
        Outcome::DeviceFault(slot) => {
            let status = Status::DeviceFault(DeviceAt::Slot(slot));
            work_failed(cabinet, printer, recorder, input, history, status)
        }
        Outcome::Tampered(slot) => {
            let status = Status::Tampered(slot);
            work_failed(cabinet, printer, recorder, input, history, status)
        }
        Outcome::BatchFailed => work_unloaded(cabinet, printer, recorder, input, history),
    }
}
