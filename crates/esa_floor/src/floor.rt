//! A floor: what the turns of a run work on.

ghost use Rattle.std.specs.Prelude.{◌≡◌, ◌≢◌, ℕ, ◌+◌, ◌-◌, ◌*◌, ◌<◌, ◌≤◌, ◌↔◌, ◌++◌, ◌∷◌, List, [], min, Some, None, IsTrue, IfOk, IfErr, IsOk, OnOk, OnErr, drop, length, map, option_to_list};
ghost use Rattle.esa_device.specs.Logs.{Carried};
ghost use Rattle.esa_params.specs.Sizes.{size};
ghost use Rattle.esa_params.specs.Slots.{access_of, at, greatest_trace, number_of};
ghost use Rattle.esa_report.specs.declared.item.Item.{Item};
ghost use Rattle.esa_spec.specs.Draws.{drawn};
ghost use Rattle.esa_spec.specs.Traces.{asked, chunk_slot};
ghost use Rattle.esa_spec.specs.Turns.{held, next, next_phase};
ghost use Rattle.esa_stash.specs.Stash.{chunks as chunks_of, empty_stash, padded, queue_at, without};
ghost use Rattle.esa_vault.specs.Seals.{opens};
ghost use Rattle.esa_floor.specs.Acts.{StopsBy, StopsReading, WorksOn, answer_in, answer_of, counted_after};
ghost use Rattle.esa_floor.specs.Keeping.{Deals, HoldsAfter, HoldsChunks, HoldsRecords, IsDealt, KeepsDone, Leaves, OpensTo, QueuesHold, QueuesHoldAfter, SlotsHold, SlotsHoldAfter, StopsAfter};
ghost use Rattle.esa_floor.specs.Logging.{noted_of, read_of, write_of};
ghost use Rattle.esa_floor.specs.Marks.{mark_of, roots_of};
ghost use Rattle.esa_floor.specs.Workers.{IsInRound, IsOfFloor, WorkerStands, moved};
ghost use Rattle.esa_floor.specs.Working.{IsReady, Working, handed_by, passed};
ghost use Rattle.esa_floor.specs.Written.{EachTookItsBlock, FailedAtItsEnd, FailedByStop, GaveUpToItsEnd, ReadsGaveTheirBlocks};
ghost use Rattle.esa_floor.specs.Parts.{begun_as, count_at, ended_as, no_counts, nothing_counted, with_entry};
ghost use Rattle.esa_floor.specs.Standing.{IsAtWork, Stands, StopsAt, attempt_begun, turns_made};

use crate::acts;
use crate::exchanger::Exchanger;
use crate::told::Told;
use crate::turn::{Outcome, Stop, Turn};
use crate::worker::{Stage, Worker};
use esa_device::{Device, Recorder};
use esa_envelope::Keys;
use esa_params::{Op, Plan, Region};
use esa_report::Item;
use esa_spec::Coins;
use esa_stash::Left;
use std::alloc::Global;
use std::marker::{Model, PhantomData};

/// What never changes in a floor. No value of it is made.
pub struct Roots {
    /// The plan.
    pub plan: Plan,
    /// The keys of the outer envelopes.
    pub outer: Keys,
    /// The keys of the blocks.
    pub run: Keys,
    /// How many entries the history has room for.
    pub room: usize,
    /// The device's count of faults when the floor was made.
    pub faults: u64,
}

/// What the turns of a run work on: the recorder of the device, the history of all turns, and of the attempt at work the
/// stash, the counts of the chunks, and why its turns have stopped.
///
/// It is of a plan and of draws, `G`, which no value keeps. It stands for its history where the history decides all that
/// it holds.
#[derive(Drop)]
pub struct Floor<V: Device, G: Told> {
    outer: Keys,
    run: Keys,
    recorder: Recorder<V>,
    faults: u64,
    history: Vec<u32>,
    exchanger: Exchanger,
    claims: u32,
    writes: u32,
    attempt: Option<u32>,
    stop: Option<Stop>,
    outcome: Option<Outcome>,
    of: PhantomData<G>,
}

impl<V: Device, G: Told> Model for Floor<V, G> {
    ghost use Rattle.std.specs.Prelude.{vec_capacity};
    ghost use Rattle.esa_floor.specs.Parts.{Parts};

    ghost Value = { Parts V };

    ghost view = { λ f. record {
      plan = f.exchanger.plan;
      outer = f.outer;
      run = f.run;
      recorder = f.recorder;
      faults = f.faults;
      history = f.history.items;
      room = vec_capacity f.history;
      stash = f.exchanger.stash;
      counts = f.exchanger.counts;
      counted = record { claims = f.claims; writes = f.writes };
      attempt = f.attempt;
      stop = f.stop;
      outcome = f.outcome;
    } };
}

/// There is no memory for a floor. The recorder comes back.
#[derive(Drop)]
pub struct NoFloor<V: Device> {
    pub recorder: Recorder<V>,
}

/// The entries of a history, seen as their list.
#[derive(Drop)]
pub struct History {
    entries: Vec<u32>,
}

impl Model for History {
    ghost use Rattle.std.specs.Prelude.{List, ℕ};

    ghost Value = { List ℕ };

    ghost view = { λ h. h.entries.items };
}

impl History {
    /// The entries, the oldest first.
    pub fn entries(&self) -> &[u32]
        ensures { result.now ≡ self.now }
    {
        &self.entries
    }

    /// The entries behind the first so many.
    pub fn behind(self, count: usize) -> History
        requires { count ≤ length self }
        ensures { result ≡ drop count self }
    {
        let History { mut entries } = self;
        let left = entries.len() - count;
        entries.as_mut_slice().rotate_left(count);
        entries.truncate(left);
        History { entries }
    }
}

/// What a floor is given up for.
#[derive(Drop)]
pub struct Given<V: Device> {
    pub recorder: Recorder<V>,
    pub history: History,
    pub outcome: Option<Outcome>,
}

impl<V: Device, G: Told> Floor<V, G> {
    /// A floor with room for so many entries. The recorder is ready for the plan and has made no access.
    pub fn make<C: Coins>(
        alloc: Global,
        plan: Plan,
        outer: Keys,
        run: Keys,
        coins: &C,
        recorder: Recorder<V>,
        turns: u64,
    ) -> Result<Floor<V, G>, NoFloor<V>>
        requires coins { C.plan coins.now ≡ plan }
        requires plan { G.plan ≡ plan }
        requires draws { (a : ℕ) → G.draws a ≡ drawn (C.target_list coins.now) (C.order_list coins.now) a }
        requires ready { recorder.plan ≡ Some plan }
        requires trace { recorder.trace ≡ [] }
        requires room { greatest_trace plan ≤ recorder.room }
        ensures stands { IfOk result (λ f. Stands V.faults G.plan G.draws f) }
        ensures parts { IfOk result (λ f. f ≡ record {
          plan = plan;
          outer = outer;
          run = run;
          recorder = recorder;
          faults = V.faults recorder.device;
          history = [];
          room = turns;
          stash = empty_stash plan.b plan.c plan.s;
          counts = no_counts plan.b;
          counted = nothing_counted;
          attempt = None;
          stop = None;
          outcome = None;
        }) }
        ensures given_back { IfErr result (λ e. e.recorder ≡ recorder) }
    {
        let faults = recorder.faults();
        let Ok(exchanger) = Exchanger::make(alloc, plan) else {
            return Err(NoFloor { recorder });
        };
        let Ok(history) = Vec::with_capacity(alloc, turns as usize) else {
            return Err(NoFloor { recorder });
        };
        Ok(Floor {
            outer,
            run,
            recorder,
            faults,
            history,
            exchanger,
            claims: 0,
            writes: 0,
            attempt: None,
            stop: None,
            outcome: None,
            of: PhantomData,
        })
    }

    /// Begins an attempt: the owner's entry is added, and nothing is queued, counted or stopped.
    pub fn begin(&mut self, attempt: u32)
        requires room { length self.old.history < self.old.room }
        requires stands { Stands V.faults G.plan G.draws (begun_as self.old attempt) }
        ensures begun { self.new ≡ begun_as self.old attempt }
        ensures stands { Stands V.faults G.plan G.draws self.new }
        ensures origin { roots_of self.new ≡ roots_of self.old }
        ensures mark { mark_of self.old ≤ mark_of self.new }
    {
        let owner = self.exchanger.plan().workers();
        self.history.push_reserved(owner);
        self.exchanger.begin();
        self.claims = 0;
        self.writes = 0;
        self.attempt = Some(attempt);
        self.stop = None;
    }

    /// Ends the run: the owner's entry is added, and the outcome is kept.
    pub fn end(&mut self, outcome: Outcome)
        requires room { length self.old.history < self.old.room }
        requires stands { Stands V.faults G.plan G.draws (ended_as self.old outcome) }
        ensures ended { self.new ≡ ended_as self.old outcome }
        ensures stands { Stands V.faults G.plan G.draws self.new }
        ensures origin { roots_of self.new ≡ roots_of self.old }
        ensures mark { mark_of self.old ≤ mark_of self.new }
    {
        let owner = self.exchanger.plan().workers();
        self.history.push_reserved(owner);
        self.attempt = None;
        self.outcome = Some(outcome);
    }

    /// The plan.
    pub fn plan(&self) -> Plan
        ensures { result ≡ self.now.plan }
    {
        self.exchanger.plan()
    }

    /// The turns and the owner's entries, the oldest first.
    pub fn history(&self) -> &[u32]
        ensures { result.now ≡ self.now.history }
    {
        &self.history
    }

    /// The attempt at work.
    pub fn attempt(&self) -> Option<u32>
        ensures { result ≡ self.now.attempt }
    {
        self.attempt
    }

    /// Why the turns of the attempt have stopped.
    pub fn stop(&self) -> Option<Stop>
        ensures { result ≡ self.now.stop }
    {
        self.stop
    }

    /// How the run ended.
    pub fn outcome(&self) -> Option<Outcome>
        ensures { result ≡ self.now.outcome }
    {
        self.outcome
    }

    /// The log of its recorder has an entry for each access. It does nothing when it runs.
    pub fn keeps_its_log(&self)
        ensures { map (λ (entry : Carried). entry.access) self.now.recorder.log ≡ self.now.recorder.trace }
    {
        self.recorder.keeps_its_log();
    }

    /// Whether all chunks were written.
    pub fn spread(&self) -> bool
        ensures { IsTrue result ↔ (self.now.counted.writes ≡ self.now.plan.b * self.now.plan.b) }
    {
        let b = self.exchanger.plan().b();
        self.writes == b * b
    }

    /// How many items the chunk of a bucket for a target has.
    pub fn count(&self, bucket: u32, target: u32) -> u32
        requires bucket { bucket < self.now.plan.b }
        requires target { target < self.now.plan.b }
        ensures { result ≡ count_at self.now.plan.b self.now.counts bucket target }
    {
        self.exchanger.count(bucket, target)
    }

    /// Moves a target's queue to `out`, in order, with dummies behind it. `Left` comes exactly where the queue is longer,
    /// and then all is as before.
    pub fn spill(&mut self, target: u32, out: &mut [Item]) -> Result<u32, Left>
        requires { target < self.old.plan.b }
        ensures fits { IsOk result ↔ (length (queue_at self.old.stash target) ≤ length out.old) }
        ensures moved { OnOk result (out.new ≡ padded (length out.old) (queue_at self.old.stash target)) }
        ensures count { IfOk result (λ count. count ≡ length (queue_at self.old.stash target)) }
        ensures emptied { OnOk result (self.new ≡ record self.old { stash = without self.old.stash target }) }
        ensures left { IfErr result (λ left. left.held ≡ length (queue_at self.old.stash target)) }
        ensures unchanged { OnErr result (self.new ≡ self.old) }
        ensures out_unchanged { OnErr result (out.new ≡ out.old) }
        ensures origin { roots_of self.new ≡ roots_of self.old }
        ensures mark { mark_of self.new ≡ mark_of self.old }
    {
        self.exchanger.spill(target, out)
    }

    /// Gives the floor up.
    pub fn give(self) -> Given<V>
        ensures { result ≡ record { recorder = self.recorder; history = self.history; outcome = self.outcome } }
    {
        let Floor {
            outer: _,
            run: _,
            recorder,
            faults: _,
            history,
            exchanger: _,
            claims: _,
            writes: _,
            attempt: _,
            stop: _,
            outcome,
            of: _,
        } = self;
        Given {
            recorder,
            history: History { entries: history },
            outcome,
        }
    }
}

impl<V: Device, G: Told> Floor<V, G> {
    ghost use Rattle.std.specs.Borrow.{Lends, sem};
    ghost use Rattle.esa_device.specs.contracts.recorder.Recorder.{the_row as recorder_row};
    ghost use Rattle.esa_floor.specs.contracts.floor.Floor.{the_row};

    /// Lends the recorder. Whatever is written through it, all else stays as it was.
    pub fn recorder(&mut self) -> &mut Recorder<V>
        ensures* lends { sem 𝓛 (Lends (the_row V.row G.row V.Device G.Told) (recorder_row V.row V.Device) self.entry result (λ w. record self.old { recorder = w })) }
        ensures value { result.now ≡ self.old.recorder }
    {
        &mut self.recorder
    }
}

/// The acts of a turn, of an attempt whose turns have not stopped. Each leaves a floor that stands once the worker's
/// number is added.
impl<V: Device, G: Told> Floor<V, G> {
    /// Begins a round of a worker: it takes the next bucket, if one is left.
    fn claim<C: Coins>(&mut self, worker: &mut Worker<'_, C>) -> Turn
        requires at_work { IsAtWork V.faults G.draws self.old (attempt_begun self.old) }
        requires runs { self.old.stop ≡ None }
        requires number { worker.old.number ≢ self.old.plan.workers }
        requires phase { next_phase self.old.plan.b (turns_made self.old) worker.old.number ≡ 0 }
        ensures stands { WorksOn V.faults G.draws (with_entry self.new worker.old.number) (attempt_begun self.old) (length (turns_made self.old)) }
        ensures answer { result ≡ answer_of (next self.old.plan.b (turns_made self.old) worker.old.number) None }
        ensures floor { self.new ≡ record self.old { counted = record self.old.counted { claims = min (self.old.counted.claims + 1) self.old.plan.b } } }
        ensures worker { worker.new ≡ record worker.old { phase = 1; bucket = self.old.counted.claims; stage = Stage.Empty } }
    {
        let bucket = self.claims;
        worker.claim(bucket);
        if bucket >= self.exchanger.plan().b() {
            return Turn::Done;
        }
        self.claims = bucket + 1;
        Turn::Claimed(bucket)
    }

    /// Passes a turn of a round that has no bucket.
    fn pass<C: Coins>(&self, worker: &mut Worker<'_, C>) -> Turn
        requires at_work { IsAtWork V.faults G.draws self.now (attempt_begun self.now) }
        requires runs { self.now.stop ≡ None }
        requires number { worker.old.number ≢ self.now.plan.workers }
        requires phase { next_phase self.now.plan.b (turns_made self.now) worker.old.number ≢ 0 }
        requires held { self.now.plan.b ≤ held self.now.plan.b (turns_made self.now) worker.old.number }
        requires most { worker.old.phase < worker.old.buffers.plan.b + 3 }
        ensures stands { WorksOn V.faults G.draws (with_entry self.now worker.old.number) (attempt_begun self.now) (length (turns_made self.now)) }
        ensures answer { result ≡ answer_of (next self.now.plan.b (turns_made self.now) worker.old.number) None }
        ensures worker { worker.new ≡ passed worker.old }
    {
        worker.pass();
        Turn::Idle
    }

    /// Reads the block of a worker's bucket.
    fn read<C: Coins>(&mut self, worker: &mut Worker<'_, C>) -> Turn
        requires at_work { IsAtWork V.faults G.draws self.old (attempt_begun self.old) }
        requires runs { self.old.stop ≡ None }
        requires number { worker.old.number ≢ self.old.plan.workers }
        requires phase { next_phase self.old.plan.b (turns_made self.old) worker.old.number ≡ 1 }
        requires held { held self.old.plan.b (turns_made self.old) worker.old.number ≡ worker.old.bucket }
        requires bucket { worker.old.bucket < self.old.plan.b }
        requires plan { worker.old.buffers.plan ≡ self.old.plan }
        requires run { worker.old.run ≡ self.old.run }
        requires attempt { worker.old.attempt ≡ Some (attempt_begun self.old) }
        requires ready { self.old.recorder.plan ≡ Some self.old.plan }
        requires room { 0 < self.old.recorder.room }
        ensures stands { WorksOn V.faults G.draws (with_entry self.new worker.old.number) (attempt_begun self.old) (length (turns_made self.old)) }
        ensures answer { result ≡ answer_of (next self.old.plan.b (turns_made self.old) worker.old.number) self.new.stop }
        ensures floor { self.new ≡ record self.old { recorder = self.new.recorder; stop = self.new.stop } }
        ensures room { self.old.recorder.room ≡ self.new.recorder.room + 1 }
        ensures ready { self.new.recorder.plan ≡ self.old.recorder.plan }
        ensures trace { length self.new.recorder.trace ≡ length self.old.recorder.trace + 1 }
        ensures access { self.new.recorder.trace ≡ self.old.recorder.trace ++ access_of self.old.plan (attempt_begun self.old) Op.Read (at Region.Input worker.old.bucket) ∷ [] }
        ensures log { self.new.recorder.log ≡ self.old.recorder.log ++ read_of self.old.plan (attempt_begun self.old) worker.old.bucket self.new.stop self.new.recorder.last ∷ [] }
        ensures reads { StopsReading (number_of self.old.plan (at Region.Input worker.old.bucket)) (opens self.old.plan self.old.run (at Region.Input worker.old.bucket) (attempt_begun self.old) 0 self.new.recorder.last) (V.faults self.old.recorder.device) (V.faults self.new.recorder.device) self.new.stop }
        ensures opened { self.new.stop ≡ None → OpensTo self.old.plan self.old.run (attempt_begun self.old) worker.old.bucket worker.new.buffers.text self.old.recorder self.new.recorder }
        ensures worker { self.new.stop ≡ None → worker.new ≡ record worker.old { phase = 2; stage = Stage.Envelopes; buffers = record worker.old.buffers { text = worker.new.buffers.text; sealed = worker.new.buffers.sealed } } }
        ensures kept { worker.new ≡ moved worker.old worker.new }
    {
        let bucket = worker.bucket();
        self.stop = acts::read(&mut self.recorder, worker);
        acts::answer(Turn::Read(bucket), self.stop)
    }
    /// Exchanges the items of a worker's bucket.
    fn exchange<C: Coins>(&mut self, worker: &mut Worker<'_, C>) -> Turn
        requires at_work { IsAtWork V.faults G.draws self.old (attempt_begun self.old) }
        requires runs { self.old.stop ≡ None }
        requires number { worker.old.number ≢ self.old.plan.workers }
        requires phase { next_phase self.old.plan.b (turns_made self.old) worker.old.number ≡ 2 }
        requires held { held self.old.plan.b (turns_made self.old) worker.old.number ≡ worker.old.bucket }
        requires bucket { worker.old.bucket < self.old.plan.b }
        requires plan { worker.old.buffers.plan ≡ self.old.plan }
        requires attempt { worker.old.attempt ≡ Some (attempt_begun self.old) }
        requires items { worker.old.stage ≡ Stage.Items }
        requires draws { C.target_list worker.old.coins (attempt_begun self.old) worker.old.bucket ≡ (G.draws (attempt_begun self.old)).targets worker.old.bucket }
        requires drawn { length ((G.draws (attempt_begun self.old)).targets worker.old.bucket) ≡ size self.old.plan worker.old.bucket }
        ensures stands { WorksOn V.faults G.draws (with_entry self.new worker.old.number) (attempt_begun self.old) (length (turns_made self.old)) }
        ensures answer { result ≡ answer_of (next self.old.plan.b (turns_made self.old) worker.old.number) self.new.stop }
        ensures floor { self.new ≡ record self.old { stash = self.new.stash; counts = self.new.counts; stop = self.new.stop } }
        ensures chunks { self.new.stop ≡ None → worker.new.buffers.chunks ≡ chunks_of self.old.stash (handed_by worker.old.buffers worker.old.bucket) }
        ensures failed { self.new.stop ≢ None → self.new.stash ≡ self.old.stash }
        ensures dealt { self.new.stop ≡ None → IsDealt (C.target_list worker.old.coins) worker.old.bucket self.old self.new worker.old }
        ensures worker { self.new.stop ≡ None → worker.new ≡ record worker.old { phase = 3; stage = Stage.Chunks; buffers = record worker.old.buffers { chunks = worker.new.buffers.chunks } } }
        ensures kept { worker.new ≡ moved worker.old worker.new }
    {
        let bucket = worker.bucket();
        self.stop = acts::exchange(&mut self.exchanger, worker);
        acts::answer(Turn::Exchanged(bucket), self.stop)
    }

    /// Writes the chunk of a worker's bucket for the target of its phase.
    fn write<C: Coins>(&mut self, worker: &mut Worker<'_, C>) -> Turn
        requires at_work { IsAtWork V.faults G.draws self.old (attempt_begun self.old) }
        requires runs { self.old.stop ≡ None }
        requires number { worker.old.number ≢ self.old.plan.workers }
        requires phase { next_phase self.old.plan.b (turns_made self.old) worker.old.number ≡ worker.old.phase }
        requires held { held self.old.plan.b (turns_made self.old) worker.old.number ≡ worker.old.bucket }
        requires bucket { worker.old.bucket < self.old.plan.b }
        requires plan { worker.old.buffers.plan ≡ self.old.plan }
        requires attempt { worker.old.attempt ≡ Some (attempt_begun self.old) }
        requires least { 3 ≤ worker.old.phase }
        requires most { worker.old.phase < self.old.plan.b + 3 }
        requires blocks { worker.old.stage ≡ Stage.Blocks }
        requires ready { self.old.recorder.plan ≡ Some self.old.plan }
        requires room { 0 < self.old.recorder.room }
        ensures stands { WorksOn V.faults G.draws (with_entry self.new worker.old.number) (attempt_begun self.old) (length (turns_made self.old)) }
        ensures answer { result ≡ answer_of (next self.old.plan.b (turns_made self.old) worker.old.number) self.new.stop }
        ensures floor { self.new ≡ record self.old { recorder = self.new.recorder; counted = counted_after self.old.counted self.new.stop; stop = self.new.stop } }
        ensures room { self.old.recorder.room ≡ self.new.recorder.room + 1 }
        ensures ready { self.new.recorder.plan ≡ self.old.recorder.plan }
        ensures trace { length self.new.recorder.trace ≡ length self.old.recorder.trace + 1 }
        ensures access { self.new.recorder.trace ≡ self.old.recorder.trace ++ access_of self.old.plan (attempt_begun self.old) Op.Write (chunk_slot self.old.plan worker.old.bucket (worker.old.phase - 3)) ∷ [] }
        ensures log { self.new.recorder.log ≡ self.old.recorder.log ++ write_of self.old.plan worker.old.run (attempt_begun self.old) worker.old.bucket (worker.old.phase - 3) self.new.stop worker.old.buffers.chunks ∷ [] }
        ensures last { self.new.recorder.last ≡ self.old.recorder.last }
        ensures worker { self.new.stop ≡ None → worker.new ≡ passed worker.old }
        ensures kept { worker.new ≡ moved worker.old worker.new }
    {
        let (bucket, target) = (worker.bucket(), worker.phase() - 3);
        let b = self.exchanger.plan().b();
        self.stop = acts::write(&mut self.recorder, worker);
        self.writes = acts::counted(self.writes, b * b, self.stop);
        acts::answer(Turn::Wrote { bucket, target }, self.stop)
    }
    /// The act of a worker's turn in a round that has a bucket.
    fn go_on<C: Coins>(&mut self, worker: &mut Worker<'_, C>) -> Turn
        requires at_work { IsAtWork V.faults G.draws self.old (attempt_begun self.old) }
        requires runs { self.old.stop ≡ None }
        requires number { worker.old.number ≢ self.old.plan.workers }
        requires phase { next_phase self.old.plan.b (turns_made self.old) worker.old.number ≡ worker.old.phase }
        requires plan { worker.old.buffers.plan ≡ self.old.plan }
        requires run { worker.old.run ≡ self.old.run }
        requires attempt { worker.old.attempt ≡ Some (attempt_begun self.old) }
        requires most { worker.old.phase < self.old.plan.b + 3 }
        requires items { worker.old.phase ≡ 2 → worker.old.bucket < self.old.plan.b → worker.old.stage ≡ Stage.Items }
        requires blocks { 3 ≤ worker.old.phase → worker.old.bucket < self.old.plan.b → worker.old.stage ≡ Stage.Blocks }
        requires draws { (j : ℕ) → j < self.old.plan.b → C.target_list worker.old.coins (attempt_begun self.old) j ≡ (G.draws (attempt_begun self.old)).targets j }
        requires drawn { (j : ℕ) → j < self.old.plan.b → length ((G.draws (attempt_begun self.old)).targets j) ≡ size self.old.plan j }
        requires ready { self.old.recorder.plan ≡ Some self.old.plan }
        requires room { 0 < self.old.recorder.room }
        requires later { 1 ≤ worker.old.phase }
        requires held { held self.old.plan.b (turns_made self.old) worker.old.number ≡ worker.old.bucket }
        requires bucket { worker.old.bucket < self.old.plan.b }
        requires round { IsInRound self.old.plan.b (turns_made self.old) worker.old }
        ensures stands { WorksOn V.faults G.draws (with_entry self.new worker.old.number) (attempt_begun self.old) (length (turns_made self.old)) }
        ensures answer { result ≡ answer_of (next self.old.plan.b (turns_made self.old) worker.old.number) self.new.stop }
        ensures kept { self.new ≡ record self.old { recorder = self.new.recorder; stash = self.new.stash; counts = self.new.counts; counted = self.new.counted; stop = self.new.stop } }
        ensures ready { self.new.recorder.plan ≡ self.old.recorder.plan }
        ensures room { length self.new.recorder.trace + self.new.recorder.room ≡ length self.old.recorder.trace + self.old.recorder.room }
        ensures few { length self.new.recorder.trace ≤ length self.old.recorder.trace + 1 }
        ensures access { self.new.recorder.trace ≡ self.old.recorder.trace ++ option_to_list (asked self.old.plan (attempt_begun self.old) (next self.old.plan.b (turns_made self.old) worker.old.number)) }
        ensures holds { HoldsRecords self.new worker.new }
        ensures leaves { self.new.stop ≡ None → Leaves (next self.old.plan.b (turns_made self.old) worker.old.number) self.new.recorder.last self.old worker.old worker.new }
        ensures failed { self.new.stop ≢ None → self.new.stash ≡ self.old.stash }
        ensures deals { self.new.stop ≡ None → Deals (C.target_list worker.old.coins) (next self.old.plan.b (turns_made self.old) worker.old.number) self.old self.new worker.old }
        ensures reads { StopsBy self.old.plan self.old.run (attempt_begun self.old) (next self.old.plan.b (turns_made self.old) worker.old.number) self.new.recorder.last (V.faults self.old.recorder.device) (V.faults self.new.recorder.device) self.new.stop }
        ensures log { self.new.recorder.log ≡ self.old.recorder.log ++ noted_of self.old.plan worker.old.run (attempt_begun self.old) (next self.old.plan.b (turns_made self.old) worker.old.number) self.new.stop self.new.recorder.last worker.old.buffers.chunks }
        ensures round { self.new.stop ≡ None → IsInRound self.old.plan.b (turns_made self.old ++ worker.old.number ∷ []) worker.new }
        ensures moved { worker.new ≡ moved worker.old worker.new }
    {
        let phase = worker.phase();
        if phase == 1 {
            return self.read(worker);
        }
        if phase == 2 {
            return self.exchange(worker);
        }
        self.write(worker)
    }

    /// The act of a worker's turn.
    fn act<C: Coins>(&mut self, worker: &mut Worker<'_, C>) -> Turn
        requires at_work { IsAtWork V.faults G.draws self.old (attempt_begun self.old) }
        requires runs { self.old.stop ≡ None }
        requires number { worker.old.number ≢ self.old.plan.workers }
        requires phase { next_phase self.old.plan.b (turns_made self.old) worker.old.number ≡ worker.old.phase }
        requires plan { worker.old.buffers.plan ≡ self.old.plan }
        requires run { worker.old.run ≡ self.old.run }
        requires attempt { worker.old.attempt ≡ Some (attempt_begun self.old) }
        requires most { worker.old.phase < self.old.plan.b + 3 }
        requires items { worker.old.phase ≡ 2 → worker.old.bucket < self.old.plan.b → worker.old.stage ≡ Stage.Items }
        requires blocks { 3 ≤ worker.old.phase → worker.old.bucket < self.old.plan.b → worker.old.stage ≡ Stage.Blocks }
        requires draws { (j : ℕ) → j < self.old.plan.b → C.target_list worker.old.coins (attempt_begun self.old) j ≡ (G.draws (attempt_begun self.old)).targets j }
        requires drawn { (j : ℕ) → j < self.old.plan.b → length ((G.draws (attempt_begun self.old)).targets j) ≡ size self.old.plan j }
        requires ready { self.old.recorder.plan ≡ Some self.old.plan }
        requires room { worker.old.bucket < self.old.plan.b → 0 < self.old.recorder.room }
        requires held { worker.old.phase ≢ 0 → worker.old.bucket ≡ min (held self.old.plan.b (turns_made self.old) worker.old.number) self.old.plan.b }
        requires round { IsInRound self.old.plan.b (turns_made self.old) worker.old }
        ensures stands { WorksOn V.faults G.draws (with_entry self.new worker.old.number) (attempt_begun self.old) (length (turns_made self.old)) }
        ensures answer { result ≡ answer_of (next self.old.plan.b (turns_made self.old) worker.old.number) self.new.stop }
        ensures kept { self.new ≡ record self.old { recorder = self.new.recorder; stash = self.new.stash; counts = self.new.counts; counted = self.new.counted; stop = self.new.stop } }
        ensures ready { self.new.recorder.plan ≡ self.old.recorder.plan }
        ensures room { length self.new.recorder.trace + self.new.recorder.room ≡ length self.old.recorder.trace + self.old.recorder.room }
        ensures few { length self.new.recorder.trace ≤ length self.old.recorder.trace + 1 }
        ensures access { self.new.recorder.trace ≡ self.old.recorder.trace ++ option_to_list (asked self.old.plan (attempt_begun self.old) (next self.old.plan.b (turns_made self.old) worker.old.number)) }
        ensures holds { HoldsRecords self.new worker.new }
        ensures leaves { self.new.stop ≡ None → Leaves (next self.old.plan.b (turns_made self.old) worker.old.number) self.new.recorder.last self.old worker.old worker.new }
        ensures failed { self.new.stop ≢ None → self.new.stash ≡ self.old.stash }
        ensures deals { self.new.stop ≡ None → Deals (C.target_list worker.old.coins) (next self.old.plan.b (turns_made self.old) worker.old.number) self.old self.new worker.old }
        ensures reads { StopsBy self.old.plan self.old.run (attempt_begun self.old) (next self.old.plan.b (turns_made self.old) worker.old.number) self.new.recorder.last (V.faults self.old.recorder.device) (V.faults self.new.recorder.device) self.new.stop }
        ensures log { self.new.recorder.log ≡ self.old.recorder.log ++ noted_of self.old.plan worker.old.run (attempt_begun self.old) (next self.old.plan.b (turns_made self.old) worker.old.number) self.new.stop self.new.recorder.last worker.old.buffers.chunks }
        ensures round { self.new.stop ≡ None → IsInRound self.old.plan.b (turns_made self.old ++ worker.old.number ∷ []) worker.new }
        ensures moved { worker.new ≡ moved worker.old worker.new }
    {
        if worker.phase() == 0 {
            return self.claim(worker);
        }
        if worker.bucket() >= self.exchanger.plan().b() {
            return self.pass(worker);
        }
        self.go_on(worker)
    }

    /// What a worker's turn does and answers, on a floor that has still to get the worker's number.
    fn take<C: Coins>(&mut self, worker: &mut Worker<'_, C>) -> Turn
        requires room { length self.old.history < self.old.room }
        requires stands { Stands V.faults G.plan G.draws self.old }
        requires of { IsOfFloor G.draws (C.target_list worker.old.coins) self.old worker.old }
        requires ready { IsReady worker.old.stage }
        requires worker { self.old.attempt ≢ None → WorkerStands self.old worker.old }
        ensures stands { Stands V.faults G.plan G.draws (with_entry self.new worker.old.number) }
        ensures answer { result ≡ answer_in self.old.attempt (next self.old.plan.b (turns_made self.old) worker.old.number) self.new.stop }
        ensures kept { self.new ≡ record self.old { recorder = self.new.recorder; stash = self.new.stash; counts = self.new.counts; counted = self.new.counted; stop = self.new.stop } }
        ensures few { length self.new.recorder.trace ≤ length self.old.recorder.trace + 1 }
        ensures access { self.old.attempt ≢ None → self.old.stop ≡ None → self.new.recorder.trace ≡ self.old.recorder.trace ++ option_to_list (asked self.old.plan (attempt_begun self.old) (next self.old.plan.b (turns_made self.old) worker.old.number)) }
        ensures holds { HoldsRecords self.new worker.new }
        ensures leaves { self.old.attempt ≢ None → self.old.stop ≡ None → self.new.stop ≡ None → Leaves (next self.old.plan.b (turns_made self.old) worker.old.number) self.new.recorder.last self.old worker.old worker.new }
        ensures deals { self.old.attempt ≢ None → self.old.stop ≡ None → self.new.stop ≡ None → Deals (C.target_list worker.old.coins) (next self.old.plan.b (turns_made self.old) worker.old.number) self.old self.new worker.old }
        ensures reads { self.old.attempt ≢ None → self.old.stop ≡ None → StopsBy self.old.plan self.old.run (attempt_begun self.old) (next self.old.plan.b (turns_made self.old) worker.old.number) self.new.recorder.last (V.faults self.old.recorder.device) (V.faults self.new.recorder.device) self.new.stop }
        ensures log { self.old.attempt ≢ None → self.old.stop ≡ None → self.new.recorder.log ≡ self.old.recorder.log ++ noted_of self.old.plan worker.old.run (attempt_begun self.old) (next self.old.plan.b (turns_made self.old) worker.old.number) self.new.stop self.new.recorder.last worker.old.buffers.chunks }
        ensures failed { self.new.stop ≢ None → self.new.stash ≡ self.old.stash }
        ensures stops { self.old.attempt ≢ None → self.old.stop ≡ None → self.new.stop ≢ None → StopsAt V.faults (G.draws (attempt_begun self.old)) (attempt_begun self.old) (with_entry self.new worker.old.number) (length (turns_made self.old)) self.new.stop }
        ensures later { self.old.stop ≢ None → self.new ≡ self.old }
        ensures idle { self.old.attempt ≡ None → self.new ≡ self.old }
        ensures worker { self.old.attempt ≢ None → WorkerStands (with_entry self.new worker.old.number) worker.new }
        ensures moved { worker.new ≡ moved worker.old worker.new }
        ensures worker_later { self.old.stop ≢ None → worker.new ≡ worker.old }
        ensures worker_idle { self.old.attempt ≡ None → worker.new ≡ worker.old }
    {
        if self.attempt.is_none() {
            return Turn::Done;
        }
        match self.stop {
            Some(stop) => Turn::Stopped(stop),
            None => self.act(worker),
        }
    }
}

/// A turn of a worker.
impl<V: Device, G: Told> Floor<V, G> {
    /// A turn of a worker, which adds the worker's number to the history, also where it answers that the turns have
    /// stopped. It does what the history that is longer by the number says, unless it fails or an earlier turn of the
    /// attempt did: then it answers the first stop.
    pub fn turn<C: Coins>(&mut self, worker: &mut Worker<'_, C>) -> Turn
        requires room { length self.old.history < self.old.room }
        requires stands { Stands V.faults G.plan G.draws self.old }
        requires of { IsOfFloor G.draws (C.target_list worker.old.coins) self.old worker.old }
        requires ready { IsReady worker.old.stage }
        requires worker { self.old.attempt ≢ None → WorkerStands self.old worker.old }
        ensures history { self.new.history ≡ self.old.history ++ worker.old.number ∷ [] }
        ensures stands { Stands V.faults G.plan G.draws self.new }
        ensures answer { result ≡ answer_in self.old.attempt (next self.old.plan.b (turns_made self.old) worker.old.number) self.new.stop }
        ensures origin { roots_of self.new ≡ roots_of self.old }
        ensures mark { mark_of self.old ≤ mark_of self.new }
        ensures attempt { self.new.attempt ≡ self.old.attempt }
        ensures outcome { self.new.outcome ≡ self.old.outcome }
        ensures few { length self.new.recorder.trace ≤ length self.old.recorder.trace + 1 }
        ensures access { self.old.attempt ≢ None → self.old.stop ≡ None → self.new.recorder.trace ≡ self.old.recorder.trace ++ option_to_list (asked self.old.plan (attempt_begun self.old) (next self.old.plan.b (turns_made self.old) worker.old.number)) }
        ensures log { self.old.attempt ≢ None → self.old.stop ≡ None → self.new.recorder.log ≡ self.old.recorder.log ++ noted_of self.old.plan worker.old.run (attempt_begun self.old) (next self.old.plan.b (turns_made self.old) worker.old.number) self.new.stop self.new.recorder.last worker.old.buffers.chunks }
        ensures later { self.old.stop ≢ None → self.new ≡ with_entry self.old worker.old.number }
        ensures idle { self.old.attempt ≡ None → self.new ≡ with_entry self.old worker.old.number }
        ensures worker { self.old.attempt ≢ None → WorkerStands self.new worker.new }
        ensures others { (other : Working C) → other.number ≢ worker.old.number → WorkerStands self.old other → WorkerStands self.new other }
        ensures moved { worker.new ≡ moved worker.old worker.new }
        ensures worker_later { self.old.stop ≢ None → worker.new ≡ worker.old }
        ensures worker_idle { self.old.attempt ≡ None → worker.new ≡ worker.old }

        // Whatever the log: what a turn that did not fail leaves its worker and makes of the stash, that a turn that fails
        // leaves the stash, and that a read stops exactly where its device failed or the bytes that it gave don't open.
        ensures leaves { self.old.attempt ≢ None → self.old.stop ≡ None → self.new.stop ≡ None → Leaves (next self.old.plan.b (turns_made self.old) worker.old.number) self.new.recorder.last self.old worker.old worker.new }
        ensures deals { self.old.attempt ≢ None → self.old.stop ≡ None → self.new.stop ≡ None → Deals (C.target_list worker.old.coins) (next self.old.plan.b (turns_made self.old) worker.old.number) self.old self.new worker.old }
        ensures stash { self.new.stop ≢ None → self.new.stash ≡ self.old.stash }
        ensures opens { self.old.attempt ≢ None → self.old.stop ≡ None → StopsBy self.old.plan self.old.run (attempt_begun self.old) (next self.old.plan.b (turns_made self.old) worker.old.number) self.new.recorder.last (V.faults self.old.recorder.device) (V.faults self.new.recorder.device) self.new.stop }

        // The worker and the others hold the records of what they read, and the queues have those of their places.
        ensures holds { HoldsRecords self.new worker.new }
        ensures others_hold { (other : Working C) → HoldsRecords self.old other → HoldsRecords self.new other }
        ensures queues { HoldsRecords self.old worker.old → QueuesHold G.draws self.old → QueuesHold G.draws self.new }
        ensures chunks { HoldsRecords self.old worker.old → QueuesHold G.draws self.old → HoldsChunks G.draws self.old worker.old
            → HoldsChunks G.draws self.new worker.new }
        ensures others_chunks { (other : Working C) → HoldsChunks G.draws self.old other → HoldsChunks G.draws self.new other }
        ensures slots { HoldsChunks G.draws self.old worker.old → SlotsHold G.draws self.old → SlotsHold G.draws self.new }
        ensures took { (record_of : ℕ → Item) → HoldsChunks G.draws self.old worker.old → EachTookItsBlock G.draws record_of self.old → EachTookItsBlock G.draws record_of self.new }

        // No access failed but the last one, where the stop is that the device failed.
        ensures failed { FailedByStop self.old.stop self.old.recorder.log → FailedByStop self.new.stop self.new.recorder.log }

        // Each read gave bytes that open, but the last access, where the stop is that it failed or that they don't.
        ensures reads { ReadsGaveTheirBlocks G.draws self.old → ReadsGaveTheirBlocks G.draws self.new }

        // So it is by how the run has ended, if it has, or by the stop, which name the slot of the access that failed.
        ensures failed_at_end { FailedAtItsEnd self.old → FailedAtItsEnd self.new }
        ensures reads_up_to_end { GaveUpToItsEnd G.draws self.old → GaveUpToItsEnd G.draws self.new }

        // Where this turn fails, the turns stop at it, and the queues and the slots hold what those before it made.
        ensures stops { self.old.attempt ≢ None → self.old.stop ≡ None → self.new.stop ≢ None → StopsAfter V.faults G.draws (turns_made self.old) self.new }
        ensures queues_before { self.old.attempt ≢ None → self.old.stop ≡ None → self.new.stop ≢ None → QueuesHold G.draws self.old
            → QueuesHoldAfter G.draws (turns_made self.old) self.new }
        ensures slots_before { self.old.attempt ≢ None → self.old.stop ≡ None → self.new.stop ≢ None → SlotsHold G.draws self.old
            → SlotsHoldAfter G.draws (turns_made self.old) self.new }

        // Then the other workers hold what they held, and go on to hold it.
        ensures others_before { (other : Working C) → self.old.attempt ≢ None → self.old.stop ≡ None → self.new.stop ≢ None → HoldsRecords self.old other
            → HoldsChunks G.draws self.old other → HoldsAfter G.draws (turns_made self.old) self.new other }
        ensures others_still { (h : List ℕ) (other : Working C) → HoldsAfter G.draws h self.old other → HoldsAfter G.draws h self.new other }

        // However the turns stop, the queues and the slots hold what those that are done made.
        ensures done { HoldsRecords self.old worker.old → HoldsChunks G.draws self.old worker.old → KeepsDone V.faults G.draws self.old → KeepsDone V.faults G.draws self.new }
    {
        let turn = self.take(worker);
        self.history.push_reserved(worker.number());
        turn
    }
}
