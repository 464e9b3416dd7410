//! The acts of a turn. Each makes one access at most, and tells the stop that there is after it.

ghost use Rattle.std.specs.Prelude.{◌≡◌, ◌+◌, ◌-◌, ◌*◌, ◌^◌, ◌<◌, ◌≤◌, ◌++◌, [], ◌∷◌, Some, None, All, length};
ghost use Rattle.esa_params.specs.Form.{envelope_length};
ghost use Rattle.esa_params.specs.Sizes.{size};
ghost use Rattle.esa_params.specs.Slots.{access_of, at, item_length, number_of};
ghost use Rattle.esa_spec.specs.Traces.{chunk_slot};
ghost use Rattle.esa_stash.specs.Stash.{chunks as chunks_of};
ghost use Rattle.esa_vault.specs.Placed.{IsSpelled};
ghost use Rattle.esa_vault.specs.Seals.{opens};
ghost use Rattle.esa_floor.specs.Acts.{StopsExchanging, StopsReading, StopsWriting, answered, one_more};
ghost use Rattle.esa_floor.specs.Exchanges.{AreOf};
ghost use Rattle.esa_floor.specs.Keeping.{OpensTo};
ghost use Rattle.esa_floor.specs.Logging.{read_of, write_of};
ghost use Rattle.esa_floor.specs.Workers.{moved};
ghost use Rattle.esa_floor.specs.Working.{AreDrawn, AreOpened, IsBegun, attempt_in, handed_by, passed};

use crate::exchanger::Exchanger;
use crate::turn::{Stop, Turn};
use crate::worker::{Stage, Worker};
use esa_device::{Device, Recorder};
use esa_params::{Op, Region};
use esa_spec::Coins;
use esa_vault::VaultFault;

/// Reads the block of a worker's bucket.
pub(crate) fn read<V: Device, C: Coins>(
    recorder: &mut Recorder<V>,
    worker: &mut Worker<'_, C>,
) -> Option<Stop>
    requires begun { IsBegun worker.old.buffers.plan worker.old.attempt }
    requires bucket { worker.old.bucket < worker.old.buffers.plan.b }
    requires ready { recorder.old.plan ≡ Some worker.old.buffers.plan }
    requires room { 0 < recorder.old.room }
    ensures trace { recorder.new.trace ≡ recorder.old.trace ++ access_of worker.old.buffers.plan (attempt_in worker.old.attempt) Op.Read (at Region.Input worker.old.bucket) ∷ [] }
    ensures log { recorder.new.log ≡ recorder.old.log ++ read_of worker.old.buffers.plan (attempt_in worker.old.attempt) worker.old.bucket result recorder.new.last ∷ [] }
    ensures opened { result ≡ None → OpensTo worker.old.buffers.plan worker.old.run (attempt_in worker.old.attempt) worker.old.bucket worker.new.buffers.text recorder.old recorder.new }
    ensures room { recorder.old.room ≡ recorder.new.room + 1 }
    ensures ready { recorder.new.plan ≡ recorder.old.plan }
    ensures stops { StopsReading (number_of worker.old.buffers.plan (at Region.Input worker.old.bucket)) (opens worker.old.buffers.plan worker.old.run (at Region.Input worker.old.bucket) (attempt_in worker.old.attempt) 0 recorder.new.last) (V.faults recorder.old.device) (V.faults recorder.new.device) result }
    ensures worker { result ≡ None → worker.new ≡ record worker.old { phase = 2; stage = Stage.Envelopes; buffers = record worker.old.buffers { text = worker.new.buffers.text; sealed = worker.new.buffers.sealed } } }
    ensures kept { worker.new ≡ moved worker.old worker.new }
{
    match worker.read(recorder) {
        Ok(()) => None,
        Err(VaultFault::Device(number)) => Some(Stop::DeviceFault(number)),
        Err(VaultFault::Tampered(number)) => Some(Stop::Tampered(number)),
    }
}

/// Exchanges the items of a worker's bucket.
pub(crate) fn exchange<C: Coins>(
    exchanger: &mut Exchanger,
    worker: &mut Worker<'_, C>,
) -> Option<Stop>
    requires items { worker.old.stage ≡ Stage.Items }
    requires plan { exchanger.old.plan ≡ worker.old.buffers.plan }
    requires spelled { All (All (IsSpelled (item_length worker.old.buffers.plan.form))) exchanger.old.stash.queues }
    ensures chunks { result ≡ None → worker.new.buffers.chunks ≡ chunks_of exchanger.old.stash (handed_by worker.old.buffers worker.old.bucket) }
    ensures stops { StopsExchanging exchanger.old exchanger.new worker.old.bucket (handed_by worker.old.buffers worker.old.bucket) result }
    ensures worker { result ≡ None → worker.new ≡ record worker.old { phase = 3; stage = Stage.Chunks; buffers = record worker.old.buffers { chunks = worker.new.buffers.chunks } } }
    ensures kept { worker.new ≡ moved worker.old worker.new }
    ensures drawn { AreDrawn (C.target_list worker.old.coins (attempt_in worker.old.attempt) worker.old.bucket) worker.old.buffers worker.old.bucket }
    ensures opened { AreOpened worker.old.outer worker.old.buffers worker.old.bucket }
    ensures text { length worker.old.buffers.text ≡ size worker.old.buffers.plan 0 * envelope_length worker.old.buffers.plan.form }
    ensures of { AreOf exchanger.old.plan exchanger.old.stash exchanger.old.counts }
{
    let bucket = worker.bucket();
    match worker.exchange(exchanger) {
        Ok(()) => None,
        Err(_) => Some(Stop::StashOverflow(bucket)),
    }
}

/// Writes the chunk of a worker's bucket for the target of its phase.
pub(crate) fn write<V: Device, C: Coins>(
    recorder: &mut Recorder<V>,
    worker: &mut Worker<'_, C>,
) -> Option<Stop>
    requires blocks { worker.old.stage ≡ Stage.Blocks }
    requires least { 3 ≤ worker.old.phase }
    requires most { worker.old.phase < worker.old.buffers.plan.b + 3 }
    requires ready { recorder.old.plan ≡ Some worker.old.buffers.plan }
    requires room { 0 < recorder.old.room }
    ensures trace { recorder.new.trace ≡ recorder.old.trace ++ access_of worker.old.buffers.plan (attempt_in worker.old.attempt) Op.Write (chunk_slot worker.old.buffers.plan worker.old.bucket (worker.old.phase - 3)) ∷ [] }
    ensures log { recorder.new.log ≡ recorder.old.log ++ write_of worker.old.buffers.plan worker.old.run (attempt_in worker.old.attempt) worker.old.bucket (worker.old.phase - 3) result worker.old.buffers.chunks ∷ [] }
    ensures room { recorder.old.room ≡ recorder.new.room + 1 }
    ensures ready { recorder.new.plan ≡ recorder.old.plan }
    ensures last { recorder.new.last ≡ recorder.old.last }
    ensures stops { StopsWriting (number_of worker.old.buffers.plan (chunk_slot worker.old.buffers.plan worker.old.bucket (worker.old.phase - 3))) (V.faults recorder.old.device) (V.faults recorder.new.device) result }
    ensures worker { result ≡ None → worker.new ≡ passed worker.old }
    ensures kept { worker.new ≡ moved worker.old worker.new }
{
    match worker.write(recorder) {
        Ok(()) => None,
        Err(VaultFault::Device(number)) => Some(Stop::DeviceFault(number)),
        Err(VaultFault::Tampered(number)) => Some(Stop::Tampered(number)),
    }
}

/// The answer of a turn, by the stop that there is after it.
pub(crate) fn answer(turn: Turn, stop: Option<Stop>) -> Turn
    ensures { result ≡ answered turn stop }
{
    match stop {
        None => turn,
        Some(stop) => Turn::Stopped(stop),
    }
}

/// How many chunks were written after a write, by the stop that there is after it. `most` are written at most before it.
pub(crate) fn counted(writes: u32, most: u32, stop: Option<Stop>) -> u32
    requires few { writes ≤ most }
    requires fits { most < 2 ^ 32 - 1 }
    ensures { result ≡ one_more writes stop }
{
    match stop {
        None => writes + 1,
        Some(_) => writes,
    }
}
