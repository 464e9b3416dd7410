//! The commands run and shuffle: a batch is shuffled, and what comes out of it is counted or handed on.

ghost use Rattle.std.specs.Prelude.{◌≡◌, ◌≢◌, ◌∷◌, ◌+◌, ◌≤◌, ℕ, List, [], length, false, Some, IfOk, IfErr, MatchResult};
ghost use Rattle.esa_header.specs.Header.{header_length};
ghost use Rattle.esa_job.specs.Refusal.{runs_crew};
ghost use Rattle.esa_job.specs.Seen.{request_of};
ghost use Rattle.esa_params.specs.Form.{envelope_length};
ghost use Rattle.esa_params.specs.Slots.{greatest_trace};
ghost use Rattle.esa_shuffle.specs.Loading.{HasGiven};
ghost use Rattle.esa_shuffle.specs.Records.{IsShuffledFrom};
ghost use Rattle.esa_shuffle.specs.Runs.{seen_of};
ghost use Rattle.esa_shuffling.specs.Drawn.{draws_of};
ghost use Rattle.esa_command.specs.Ends.{EndsBy};
ghost use Rattle.esa_command.specs.Stand.{stand};
ghost use Rattle.esa_command.specs.Taking.{name_of};
ghost use Rattle.esa_running.specs.ComingOut.{batch_told, batch_part, IsMadeOf};
ghost use Rattle.esa_running.specs.Outlets.{purpose_of, HasRoom};
ghost use Rattle.esa_running.specs.Purpose.{command_for};
ghost use Rattle.esa_taking.specs.Run.{IsInside, run_steps};
ghost use Rattle.esa_running.specs.RunEnded.{HasActed, HasWorked, IsIdle, history_in};
ghost use Rattle.esa_running.specs.RunOwes.{EndsShuffle, IsRecorded, RunOwes};
ghost use Rattle.esa_taking.specs.RunTaken.{IsTaken, run_taken};
ghost use Rattle.esa_taking.specs.Wanted.{block_keys, outer_keys, turns_by, HasFewAttempts};

use crate::ending::work_ended;
use crate::purpose::Purpose;
use crate::shuffle_mode::shuffle_by_turns;
use crate::working::{Store, store_for};
use esa_batcher::BatchFile;
use esa_command::settle_failed;
use esa_device::{Device, LayRefused, Recorder};
use esa_floor::History;
use esa_job::JobField;
use esa_outside::{Cabinet, Printer};
use esa_refusal::{DeviceAt, End, Status};
use esa_shuffle::{NoRun, Ran};
use esa_taking::{RunInput, take_run};
use std::alloc::Global;

/// How a shuffle ended, and what it leaves beside its files and lines.
#[derive(Drop)]
pub struct Ended<V: Device> {
    pub end: End,
    /// The recorder, with all accesses that were made.
    pub recorder: Recorder<V>,
    /// The turns of the attempts, and the owner's entries. There is none where the load was not begun.
    pub history: Option<History>,
}

/// Shuffles the records of a batch file. Where there is no memory for that nothing was done.
fn shuffle_records<K: Cabinet, V: Device>(
    alloc: Global,
    batch: &mut BatchFile<'_, '_, K>,
    recorder: Recorder<V>,
    input: &RunInput,
) -> Result<Ran<V>, NoRun<V>>
    requires mode { runs_crew (request_of input.now.job) ≡ false }
    requires taken { IsTaken input.now }
    requires name { batch.old.name.now ≡ name_of (request_of input.now.job) JobField.Input }
    requires start { batch.old.start ≡ header_length input.now.batch.form }
    requires size { batch.old.size ≡ envelope_length input.now.batch.form }
    requires count { batch.old.count ≡ input.now.batch.count }
    requires ready { recorder.plan ≡ Some input.now.plan }
    requires trace { recorder.trace ≡ [] }
    requires room { greatest_trace input.now.plan ≤ recorder.room }
    ensures ends { IfOk result (λ ran. EndsShuffle (run_taken input.now)
        (seen_of V.faults (V.faults recorder.device) (K.faults batch.old.cabinet.now) ran.recorder ran.history (K.faults batch.new.cabinet.now)) ran.recorder.last ran.failures ran.outcome) }
    ensures few { IfOk result (λ ran. HasFewAttempts (run_taken input.now) ran.history) }

    // What the load was given are records of the batch, and the shuffle is made of them.
    ensures given { IfOk result (λ ran. let asked = run_taken input.now in
        HasGiven input.now.plan (batch_told asked (K.told batch.old.cabinet.now)) (batch_part asked) (K.heard batch.old.cabinet.now) (K.heard batch.new.cabinet.now)
        (ran.history ≢ input.now.plan.workers ∷ []) (IsShuffledFrom input.now.plan (draws_of input.now.coins) (turns_by asked ran.history)
        (outer_keys asked) (block_keys asked) ran.history ran.recorder.log ran.outcome)) }
    ensures ready { IfOk result (λ ran. ran.recorder.plan ≡ Some input.now.plan) }
    ensures room { IfOk result (λ ran. greatest_trace input.now.plan ≤ length ran.recorder.trace + ran.recorder.room) }
    ensures told { K.told batch.new.cabinet.now ≡ K.told batch.old.cabinet.now }
    ensures same_reference { batch.new.cabinet.ghost_name ≡ batch.old.cabinet.ghost_name }
    ensures given_back { IfErr result (λ none. none.recorder ≡ recorder) }
    ensures untouched { IfErr result (λ _. batch.new ≡ batch.old) }
{
    shuffle_by_turns(alloc, input, batch, recorder)
}

/// Shuffles a batch. Where there is no memory for that nothing was done.
fn shuffle_batch<K: Cabinet, V: Device>(
    alloc: Global,
    cabinet: &mut K,
    recorder: Recorder<V>,
    input: &RunInput,
) -> Result<Ran<V>, NoRun<V>>
    requires mode { runs_crew (request_of input.now.job) ≡ false }
    requires taken { IsTaken input.now }
    requires inside { IsInside (K.told cabinet.old) (name_of (request_of input.now.job) JobField.Input) input.now.batch }
    requires ready { recorder.plan ≡ Some input.now.plan }
    requires trace { recorder.trace ≡ [] }
    requires room { greatest_trace input.now.plan ≤ recorder.room }
    ensures ends { IfOk result (λ ran. EndsShuffle (run_taken input.now)
        (seen_of V.faults (V.faults recorder.device) (K.faults cabinet.old) ran.recorder ran.history (K.faults cabinet.new)) ran.recorder.last ran.failures ran.outcome) }
    ensures few { IfOk result (λ ran. HasFewAttempts (run_taken input.now) ran.history) }
    ensures given { IfOk result (λ ran. let asked = run_taken input.now in
        HasGiven input.now.plan (batch_told asked (K.told cabinet.old)) (batch_part asked) (K.heard cabinet.old) (K.heard cabinet.new)
        (ran.history ≢ input.now.plan.workers ∷ []) (IsShuffledFrom input.now.plan (draws_of input.now.coins) (turns_by asked ran.history)
        (outer_keys asked) (block_keys asked) ran.history ran.recorder.log ran.outcome)) }
    ensures ready { IfOk result (λ ran. ran.recorder.plan ≡ Some input.now.plan) }
    ensures room { IfOk result (λ ran. greatest_trace input.now.plan ≤ length ran.recorder.trace + ran.recorder.room) }
    ensures told { K.told cabinet.new ≡ K.told cabinet.old }
    ensures given_back { IfErr result (λ none. none.recorder ≡ recorder) }
    ensures untouched { IfErr result (λ _. cabinet.new ≡ cabinet.old) }
{
    let mut batch = BatchFile {
        cabinet,
        name: input.job.input(),
        start: input.batch.start(),
        size: input.plan.form().envelope(),
        count: input.batch.count,
    };
    shuffle_records(alloc, &mut batch, recorder, input)
}

/// Does the work of a command whose batch was shuffled.
pub(crate) fn end_ran<K: Cabinet, P: Printer, V: Device>(
    cabinet: &mut K,
    printer: &mut P,
    input: &RunInput,
    ran: Ran<V>,
    store: Store,
) -> Ended<V>
    requires taken { IsTaken input.now }
    requires command { (request_of input.now.job).command ≡ command_for (purpose_of store.outlet) }
    requires tables { store.tables.plan ≡ input.now.plan }
    requires outlet { HasRoom input.now.plan store.outlet }
    requires ready { ran.recorder.plan ≡ Some input.now.plan }
    requires room { greatest_trace input.now.plan ≤ length ran.recorder.trace + ran.recorder.room }
    requires few { HasFewAttempts (run_taken input.now) ran.history }
    requires ends { (device : ℕ) × (batch : ℕ) × EndsShuffle (run_taken input.now) (seen_of V.faults device batch ran.recorder ran.history (K.faults cabinet.old))
        ran.recorder.last ran.failures ran.outcome }
    ensures works { (device batch : ℕ) (given : List ℕ) → EndsShuffle (run_taken input.now) (seen_of V.faults device batch ran.recorder ran.history (K.faults cabinet.old))
        ran.recorder.last ran.failures ran.outcome
        → IsMadeOf (run_taken input.now) ran.history ran.recorder.log ran.outcome given
        → HasWorked (purpose_of store.outlet) V.told V.faults (run_taken input.now) given
        (seen_of V.faults device batch result.recorder (history_in result.history) (K.faults cabinet.old)) result.recorder
        (stand K.told K.faults K.heard cabinet.old) (stand K.told K.faults K.heard cabinet.new)
        (stand P.told P.faults P.heard printer.old) (stand P.told P.faults P.heard printer.new) result.end }
    ensures history { history_in result.history ≡ ran.history }
    ensures recorder { IsRecorded V.told input.now.plan (history_in result.history) result.recorder }
{
    let Ran {
        outcome,
        failures,
        mut recorder,
        history,
    } = ran;
    let end = work_ended(
        cabinet,
        printer,
        &mut recorder,
        input,
        outcome,
        &failures,
        history.entries(),
        store,
    );
    recorder.keeps_its_log();
    Ended {
        end,
        recorder,
        history: Some(history),
    }
}

/// Shuffles a batch and does the work of its command, with a recorder that is ready for it.
fn run_ready<K: Cabinet, P: Printer, V: Device>(
    alloc: Global,
    cabinet: &mut K,
    printer: &mut P,
    recorder: Recorder<V>,
    input: &RunInput,
    store: Store,
) -> Result<Ended<V>, NoRun<V>>
    requires mode { runs_crew (request_of input.now.job) ≡ false }
    requires taken { IsTaken input.now }
    requires command { (request_of input.now.job).command ≡ command_for (purpose_of store.outlet) }
    requires inside { IsInside (K.told cabinet.old) (name_of (request_of input.now.job) JobField.Input) input.now.batch }
    requires tables { store.tables.plan ≡ input.now.plan }
    requires outlet { HasRoom input.now.plan store.outlet }
    requires ready { recorder.plan ≡ Some input.now.plan }
    requires trace { recorder.trace ≡ [] }
    requires room { greatest_trace input.now.plan ≤ recorder.room }
    ensures { let device = V.faults recorder.device in MatchResult result
        (λ ended. HasActed (purpose_of store.outlet) V.told V.faults device (run_taken input.now)
        (stand K.told K.faults K.heard cabinet.old) (stand K.told K.faults K.heard cabinet.new)
        (stand P.told P.faults P.heard printer.old) (stand P.told P.faults P.heard printer.new) ended.recorder (history_in ended.history) ended.end)
        (λ none. (none.recorder.trace ≡ []) × (cabinet.new ≡ cabinet.old) × (printer.new ≡ printer.old)) }
{
    match shuffle_batch(alloc, cabinet, recorder, input) {
        Ok(ran) => Ok(end_ran(cabinet, printer, input, ran, store)),
        Err(none) => Err(none),
    }
}

/// Does what is asked for. Where there is no memory for that nothing was done.
pub(crate) fn act<K: Cabinet, P: Printer, V: Device>(
    alloc: Global,
    purpose: Purpose,
    cabinet: &mut K,
    printer: &mut P,
    mut recorder: Recorder<V>,
    input: &RunInput,
) -> Result<Ended<V>, NoRun<V>>
    requires mode { runs_crew (request_of input.now.job) ≡ false }
    requires taken { IsTaken input.now }
    requires command { (request_of input.now.job).command ≡ command_for purpose }
    requires inside { IsInside (K.told cabinet.old) (name_of (request_of input.now.job) JobField.Input) input.now.batch }
    requires trace { recorder.trace ≡ [] }
    ensures { MatchResult result
        (λ ended. HasActed purpose V.told V.faults (V.faults recorder.device) (run_taken input.now)
        (stand K.told K.faults K.heard cabinet.old) (stand K.told K.faults K.heard cabinet.new)
        (stand P.told P.faults P.heard printer.old) (stand P.told P.faults P.heard printer.new) ended.recorder (history_in ended.history) ended.end)
        (λ none. (none.recorder.trace ≡ []) × (cabinet.new ≡ cabinet.old) × (printer.new ≡ printer.old)) }
{
    let Ok(store) = store_for(alloc, purpose, &input.plan) else {
        return Err(NoRun { recorder });
    };
    match recorder.ready(&input.plan) {
        Ok(()) => run_ready(alloc, cabinet, printer, recorder, input, store),
        Err(LayRefused::OutOfMemory) => Err(NoRun { recorder }),
        Err(LayRefused::Failed) => Ok(Ended {
            end: settle_failed(Status::DeviceFault(DeviceAt::Lay), Ok(()), printer),
            recorder,
            history: None,
        }),
    }
}

/// Shuffles a batch on one thread for a purpose. For run it counts the values of the records that are kept and writes their
/// database; for shuffle it writes these records as a forward file. Then it writes how the shuffle went, where the job names
/// files for that, and prints its numbers. A job that asks for a crew is refused.
pub fn run<K: Cabinet, P: Printer, V: Device>(
    alloc: Global,
    purpose: Purpose,
    cabinet: &mut K,
    printer: &mut P,
    recorder: Recorder<V>,
    name: &str,
) -> Ended<V>
    requires { recorder.trace ≡ [] }
    ensures { EndsBy (IsIdle result.recorder (history_in result.history))
        (RunOwes purpose V.told V.faults (V.faults recorder.device) result.recorder (history_in result.history)) (run_steps (command_for purpose) false name.now)
        (stand K.told K.faults K.heard cabinet.old) (stand K.told K.faults K.heard cabinet.new)
        (stand P.told P.faults P.heard printer.old) (stand P.told P.faults P.heard printer.new) result.end }
{
    match take_run(alloc, cabinet, purpose.command(), false, name) {
        Ok(input) => match act(alloc, purpose, cabinet, printer, recorder, &input) {
            Ok(ended) => ended,
            Err(none) => Ended {
                end: End::Stopped(Status::OutOfMemory),
                recorder: none.recorder,
                history: None,
            },
        },
        Err(stop) => Ended {
            end: End::Stopped(Status::from(stop)),
            recorder,
            history: None,
        },
    }
}
