//! The rounds of the workers, by numbers alone.

ghost use Rattle.std.specs.Prelude.{◌≡◌, ◌+◌, ◌-◌, ◌<◌, ◌^◌, IfOk, length};
ghost use Rattle.esa_spec.specs.Turns.{event_of};
ghost use Rattle.esa_model.specs.Seats.{AreSeats, none_seated, event_of_next, with_turn, phase_after, IsPlannedEvent};

use esa_spec::Event;
use std::alloc::{AllocError, Global};
use std::marker::Model;

/// A seat for each worker: the phase of its next turn, and the bucket of the round in which it is.
#[derive(Drop)]
pub(crate) struct Rounds {
    // The number of buckets.
    b: u32,
    // How many rounds were begun.
    begun: u32,
    phases: Vec<u32>,
    buckets: Vec<u32>,
}

impl Model for Rounds {
    ghost use Rattle.std.specs.Prelude.{length};
    ghost use Rattle.esa_model.specs.Seats.{Seats, AreSeats};

    ghost Value = { Seats };

    ghost view = { λ r. record { b = r.b; begun = r.begun; phases = r.phases.items; buckets = r.buckets.items } };

    ghost invariant = { λ r. AreSeats (length r.phases.items) (record { b = r.b; begun = r.begun; phases = r.phases.items; buckets = r.buckets.items }) };
}

impl Rounds {
    /// Seats of so many workers, before any turn.
    pub(crate) fn make(alloc: Global, b: u32, workers: u32) -> Result<Rounds, AllocError>
        ensures { IfOk result (λ rounds. rounds ≡ none_seated b workers) }
    {
        let phases = vec![in alloc; 0; workers as usize]?;
        let buckets = vec![in alloc; 0; workers as usize]?;
        Ok(Rounds {
            b,
            begun: 0,
            phases,
            buckets,
        })
    }

    /// Goes back to before any turn.
    pub(crate) fn restart(&mut self)
        ensures { self.new ≡ none_seated self.old.b (length self.old.phases) }
    {
        self.begun = 0;
        self.phases.fill(0);
        self.buckets.fill(0);
    }

    /// Makes a worker's turn, and tells what it does.
    pub(crate) fn take_turn(&mut self, worker: u32) -> Event
        requires worker { worker < length self.old.phases }
        requires few { self.old.b < 2 ^ 31 }
        requires fewer { self.old.begun < 2 ^ 32 - 1 }
        ensures event { result ≡ event_of_next self.old worker }
        ensures planned { IsPlannedEvent self.old.b result }
        ensures turn { self.new ≡ with_turn self.old worker }
        ensures seats { AreSeats (length self.old.phases) self.new }
    {
        let place = worker as usize;
        let phase = self.phases[place];
        self.phases[place] = phase_after(self.b, phase);
        if phase == 0 {
            let bucket = self.begun;
            self.buckets[place] = bucket;
            self.begun += 1;
            event_of(self.b, bucket, 0)
        } else {
            event_of(self.b, self.buckets[place], phase)
        }
    }
}

/// The phase that comes after one of a round over so many buckets.
fn phase_after(b: u32, phase: u32) -> u32
    requires few { b < 2 ^ 31 }
    requires phase { phase < b + 3 }
    ensures value { result ≡ phase_after b phase }
    ensures below { result < b + 3 }
{
    if phase + 1 == b + 3 { 0 } else { phase + 1 }
}

/// What a turn does in a phase of the round of a bucket.
fn event_of(b: u32, bucket: u32, phase: u32) -> Event
    requires { phase < b + 3 }
    ensures value { result ≡ event_of b bucket phase }
    ensures planned { IsPlannedEvent b result }
{
    if bucket < b {
        match phase {
            0 => Event::Claim(bucket),
            1 => Event::Read(bucket),
            2 => Event::Exchange(bucket),
            _ => Event::Write {
                bucket,
                target: phase - 3,
            },
        }
    } else if phase == 0 {
        Event::Done
    } else {
        Event::Idle
    }
}
