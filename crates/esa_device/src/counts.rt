//! What a device counts of its calls.

ghost use Rattle.std.specs.Prelude.{◌≡◌, ◌≤◌, OnOk, OnErr};
ghost use Rattle.esa_device.specs.Counting.{called, faulted};

use esa_outside::Failed;
use esa_params::Op;
use std::io;

/// The counts of faults and of reads and writes, and the last of these. A count that stands at its last value stays
/// there.
#[derive(Clone, Copy, PartialEq, Eq, Debug)]
pub struct Counts {
    pub faults: u64,
    pub calls: u64,
    pub last_call: Option<(Op, u32)>,
}

impl Counts {
    /// No call was made.
    pub fn none() -> Self
        ensures { result ≡ record { faults = 0; calls = 0; last_call = None } }
    {
        Counts {
            faults: 0,
            calls: 0,
            last_call: None,
        }
    }

    /// Counts a read or a write.
    pub fn call(&mut self, op: Op, slot: u32)
        ensures { self.new ≡ called self.old op slot }
    {
        self.calls = self.calls.saturating_add(1);
        self.last_call = Some((op, slot));
    }

    /// Counts a fault.
    pub fn fault(&mut self)
        ensures fault { self.new ≡ faulted self.old }
        ensures later { self.old.faults ≤ self.new.faults }
    {
        self.faults = self.faults.saturating_add(1);
    }
    /// Counts a fault where the machine answered an error.
    pub fn settle<T: Drop>(&mut self, answer: io::Result<T>) -> Result<T, Failed>
        ensures ok { OnOk result (self.new ≡ self.old) }
        ensures err { OnErr result (self.new ≡ faulted self.old) }
        ensures later { self.old.faults ≤ self.new.faults }
    {
        match answer {
            Ok(value) => Ok(value),
            Err(_) => {
                self.fault();
                Err(Failed)
            }
        }
    }
}
