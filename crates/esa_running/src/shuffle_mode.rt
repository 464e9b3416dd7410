//! The shuffle of a batch, by the mode of its job.

ghost use Rattle.std.specs.Prelude.{◌≡◌, ◌≢◌, ◌∷◌, ◌+◌, ◌≤◌, [], false, Some, IfOk, IfErr, length};
ghost use Rattle.esa_job.specs.Refusal.{runs_crew};
ghost use Rattle.esa_job.specs.Seen.{request_of};
ghost use Rattle.esa_params.specs.Form.{envelope_length};
ghost use Rattle.esa_params.specs.Slots.{greatest_trace};
ghost use Rattle.esa_shuffle.specs.Loading.{HasGiven};
ghost use Rattle.esa_shuffle.specs.Records.{IsShuffledFrom};
ghost use Rattle.esa_shuffle.specs.Runs.{seen_of};
ghost use Rattle.esa_shuffling.specs.Drawn.{draws_of};
ghost use Rattle.esa_running.specs.RunOwes.{EndsShuffle};
ghost use Rattle.esa_taking.specs.RunTaken.{IsTaken, run_taken};
ghost use Rattle.esa_taking.specs.Wanted.{block_keys, outer_keys, turns_by, HasFewAttempts};

use esa_device::{Device, Recorder};
use esa_outside::Records;
use esa_shuffle::{NoRun, Ran, run_turns};
use esa_taking::RunInput;
use std::alloc::Global;

/// Shuffles the batch of a job with the turns that are handed in, on one thread. Where there is no memory for that nothing was
/// done.
pub(crate) fn shuffle_by_turns<V: Device, B: Records>(
    alloc: Global,
    input: &RunInput,
    batch: &mut B,
    recorder: Recorder<V>,
) -> Result<Ran<V>, NoRun<V>>
    requires mode { runs_crew (request_of input.now.job) ≡ false }
    requires taken { IsTaken input.now }
    requires count { B.count batch.old ≡ input.now.plan.n }
    requires size { B.size batch.old ≡ envelope_length input.now.plan.form }
    requires ready { recorder.plan ≡ Some input.now.plan }
    requires trace { recorder.trace ≡ [] }
    requires room { greatest_trace input.now.plan ≤ recorder.room }
    ensures ends { IfOk result (λ ran. EndsShuffle (run_taken input.now)
        (seen_of V.faults (V.faults recorder.device) (B.faults batch.old) ran.recorder ran.history (B.faults batch.new)) ran.recorder.last ran.failures ran.outcome) }
    ensures few { IfOk result (λ ran. HasFewAttempts (run_taken input.now) ran.history) }
    ensures given { IfOk result (λ ran. let asked = run_taken input.now in
        HasGiven input.now.plan (B.told batch.old) (B.part (B.grounds batch.old)) (B.heard batch.old) (B.heard batch.new) (ran.history ≢ input.now.plan.workers ∷ [])
        (IsShuffledFrom input.now.plan (draws_of input.now.coins) (turns_by asked ran.history) (outer_keys asked) (block_keys asked) ran.history ran.recorder.log ran.outcome)) }
    ensures ready { IfOk result (λ ran. ran.recorder.plan ≡ Some input.now.plan) }
    ensures room { IfOk result (λ ran. greatest_trace input.now.plan ≤ length ran.recorder.trace + ran.recorder.room) }

    // The batch is the same one.
    ensures told { B.told batch.new ≡ B.told batch.old }
    ensures grounds { B.grounds batch.new ≡ B.grounds batch.old }

    // Where there is no memory, nothing was done.
    ensures given_back { IfErr result (λ none. none.recorder ≡ recorder) }
    ensures untouched { IfErr result (λ none. batch.new ≡ batch.old) }
{
    run_turns(
        alloc,
        input.plan,
        input.outer_keys(),
        input.block_keys(),
        &input.coins,
        batch,
        recorder,
        &input.turns,
    )
}
