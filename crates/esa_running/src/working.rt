//! What is done with a shuffle that succeeded.

ghost use Rattle.std.specs.Prelude.{◌≡◌, ◌*◌, ◌≤◌, ℕ, List, Some, IfOk};
ghost use Rattle.esa_floor.specs.declared.turn.Outcome.TheVariants.{Shuffled};
ghost use Rattle.esa_job.specs.Seen.{request_of};
ghost use Rattle.esa_command.specs.Settled.{Settles};
ghost use Rattle.esa_command.specs.Stand.{stand};
ghost use Rattle.esa_command.specs.Work.{Work};
ghost use Rattle.esa_running.specs.ByCrew.{IsByCrew, uncut_by};
ghost use Rattle.esa_running.specs.ComingOut.{Became, IsMadeOf};
ghost use Rattle.esa_running.specs.Outlets.{purpose_of, HasRoom};
ghost use Rattle.esa_running.specs.Purpose.{command_for};
ghost use Rattle.esa_running.specs.RunOwes.{HasEnded};
ghost use Rattle.esa_taking.specs.RunTaken.{IsTaken, run_taken};
ghost use Rattle.esa_taking.specs.Wanted.{sizes_in, turns_by};
ghost use Rattle.esa_shuffle.specs.Runs.{IsShuffled, seen_of};

use crate::forwarding::{forward_output, status_of_fault};
use crate::outlet::{Outlet, Success, outlet_for, work_forwarded};
use crate::outputs::work_failed;
use crate::purpose::Purpose;
use esa_device::{Device, Recorder};
use esa_outside::{Cabinet, Printer};
use esa_params::Plan;
use esa_refusal::End;
use esa_scans::Tables;
use esa_taking::RunInput;
use std::alloc::{AllocError, Global};

/// All memory that is taken for the output of a shuffle.
#[derive(Drop)]
pub(crate) struct Store {
    pub tables: Tables,
    pub outlet: Outlet,
}

/// The store for the output of a shuffle.
pub(crate) fn store_for(alloc: Global, purpose: Purpose, plan: &Plan) -> Result<Store, AllocError>
    ensures tables { IfOk result (λ store. store.tables.plan ≡ plan.now) }
    ensures purpose { IfOk result (λ store. purpose_of store.outlet ≡ purpose) }
    ensures room { IfOk result (λ store. HasRoom plan.now store.outlet) }
{
    Ok(Store {
        tables: Tables::make(alloc, *plan)?,
        outlet: outlet_for(alloc, purpose, plan)?,
    })
}

/// Forwards what is kept of the output of a shuffle that succeeded, and does its work. Where a block of the output isn't got,
/// it does what is left of a shuffle that failed.
pub(crate) fn work_shuffled<K: Cabinet, P: Printer, V: Device>(
    cabinet: &mut K,
    printer: &mut P,
    recorder: &mut Recorder<V>,
    input: &RunInput,
    attempt: u32,
    history: &[u32],
    store: Store,
) -> End
    requires taken { IsTaken input.now }
    requires command { (request_of input.now.job).command ≡ command_for (purpose_of store.outlet) }
    requires tables { store.tables.plan ≡ input.now.plan }
    requires outlet { HasRoom input.now.plan store.outlet }
    requires ready { recorder.old.plan ≡ Some input.now.plan }
    requires room { 2 * input.now.plan.b ≤ recorder.old.room }
    requires shuffled { (device : ℕ) × (batch : ℕ) × IsShuffled (sizes_in (run_taken input.now)) (run_taken input.now).draws (turns_by (run_taken input.now) history.now)
        (seen_of V.faults device batch recorder.old history.now (K.faults cabinet.old)) attempt }
    ensures works { (device batch : ℕ) (given : List ℕ) → IsShuffled (sizes_in (run_taken input.now)) (run_taken input.now).draws (turns_by (run_taken input.now) history.now)
        (seen_of V.faults device batch recorder.old history.now (K.faults cabinet.old)) attempt
        → IsMadeOf (run_taken input.now) history.now recorder.old.log (Shuffled attempt) given
        → (work : Work) × HasEnded (purpose_of store.outlet) V.told V.faults (run_taken input.now) given
        (seen_of V.faults device batch recorder.new history.now (K.faults cabinet.old)) recorder.new work
        × Became (run_taken input.now) given history.now recorder.new.log work.ended
        × IsByCrew (run_taken input.now) history.now (uncut_by work.ended)
        × Settles work (stand K.told K.faults K.heard cabinet.old) (stand K.told K.faults K.heard cabinet.new)
        (stand P.told P.faults P.heard printer.old) (stand P.told P.faults P.heard printer.new) result }
    ensures plan { recorder.new.plan ≡ recorder.old.plan }
{
    recorder.keeps_its_log();
    let Store { mut tables, outlet } = store;
    match forward_output(recorder, input, attempt, &mut tables) {
        Ok(()) => {
            let done = Success {
                attempt,
                envelopes: tables.forward(),
            };
            work_forwarded(cabinet, printer, recorder, input, &done, history, outlet)
        }
        Err(fault) => {
            let status = status_of_fault(fault);
            work_failed(cabinet, printer, recorder, input, history, status)
        }
    }
}
