//! Which calls of a cabinet or a printer in memory fail, and what was counted of them.

ghost use Rattle.std.specs.Prelude.{◌≡◌, ◌≤◌, ◌↔◌, IsTrue};
ghost use Rattle.std.specs.Bool.{OnTrue, OnFalse};
ghost use Rattle.esa_outside.specs.Calls.{IsListed, called, faulted, starved};

use std::marker::Model;

/// The calls that are to fail, by their numbers from 1 on, and the counts of calls, of faults and of
/// growths that found no memory. A count that stands at its last value stays there.
#[derive(Drop)]
pub struct Schedule {
    fails: Vec<u64>,
    made: u64,
    faults: u64,
    starved: u64,
}

impl Model for Schedule {
    ghost use Rattle.esa_outside.specs.Calls.{Calls};

    ghost Value = { Calls };

    ghost view = { λ a. record { fails = a.fails.items; made = a.made; faults = a.faults; starved = a.starved } };
}

impl Schedule {
    pub fn make(fails: Vec<u64>) -> Self
        ensures { result ≡ record { fails = fails.items; made = 0; faults = 0; starved = 0 } }
    {
        Schedule {
            fails,
            made: 0,
            faults: 0,
            starved: 0,
        }
    }

    pub fn faults(&self) -> u64
        ensures { result ≡ self.now.faults }
    {
        self.faults
    }

    pub fn starved(&self) -> u64
        ensures { result ≡ self.now.starved }
    {
        self.starved
    }

    /// Counts a call, and answers whether its number is listed, which is a fault.
    pub fn is_listed(&mut self) -> bool
        ensures listed { IsTrue result ↔ IsListed self.old }
        ensures fault { OnTrue result (self.new ≡ faulted (called self.old)) }
        ensures call { OnFalse result (self.new ≡ called self.old) }
        ensures later { self.old.faults ≤ self.new.faults }
    {
        self.made = self.made.saturating_add(1);
        let listed = self.fails.contains(&self.made);
        if listed {
            self.fault();
        }
        listed
    }

    /// Counts a fault.
    fn fault(&mut self)
        ensures fault { self.new ≡ faulted self.old }
        ensures later { self.old.faults ≤ self.new.faults }
    {
        self.faults = self.faults.saturating_add(1);
    }

    /// Counts a growth that found no memory, which is a fault too.
    pub fn starve(&mut self)
        ensures starved { self.new ≡ starved self.old }
        ensures later { self.old.faults ≤ self.new.faults }
    {
        self.fault();
        self.starved = self.starved.saturating_add(1);
    }
}
