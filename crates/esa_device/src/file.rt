//! A device whose blocks lie in one file of the machine, one after another by their numbers. A few lines for each call,
//! which tell nothing of what the file holds: what it gives and takes is the machine's.

ghost use Rattle.std.specs.Prelude.{◌≡◌, None};
ghost use Rattle.esa_params.specs.Slots.{offset_at, slots_of};

use crate::counts::Counts;
use crate::{Device, LayRefused};
use esa_outside::Failed;
use esa_params::{Op, Plan, Region, Slot};
use std::fs::{File, OpenOptions};
use std::io;
use std::marker::Model;
use std::os::unix::fs::FileExt;
use std::rt::Files;

/// A file that is open, and the plan whose blocks it holds.
#[derive(Drop)]
pub struct Opened {
    file: File,
    plan: Plan,
}

/// Blocks in one file, each read and written in its place by one call of the system. It is seen as the plan that it is
/// laid for and its counts, and tells nothing.
#[derive(Drop)]
pub struct FileDevice<R> {
    rt: R,
    path: String,
    opened: Option<Opened>,
    counts: Counts,
}

impl<R> Model for FileDevice<R> {
    ghost use Rattle.std.specs.Option.{option_map};
    ghost use Rattle.esa_device.specs.OnFile.{OnFile};

    ghost Value = { OnFile };

    ghost view = { λ a. record { plan = option_map (λ opened. opened.plan) a.opened; counts = a.counts } };
}

impl<R: Files<File = File> + Drop> FileDevice<R> {
    /// A device over the file of this path, that is laid for no plan. The file is neither made nor opened before `lay`.
    pub fn make(rt: R, path: String) -> FileDevice<R>
        ensures { result ≡ record { plan = None; counts = record { faults = 0; calls = 0; last_call = None } } }
    {
        FileDevice {
            rt,
            path,
            opened: None,
            counts: Counts::none(),
        }
    }
}

impl<R: Files<File = File> + Drop> Device for FileDevice<R> {
    ghost told = { λ _. None };

    ghost laid = { λ device. device.plan };

    ghost faults = { λ device. device.counts.faults };

    ghost calls = { λ device. device.counts.calls };

    ghost last_call = { λ device. device.counts.last_call };

    fn faults(&self) -> u64 {
        self.counts.faults
    }

    fn lay(&mut self, plan: &Plan) -> Result<(), LayRefused> {
        self.opened = None;
        let answer = open(&self.rt, &self.path, whole_length(plan));
        match self.counts.settle(answer) {
            Ok(file) => {
                self.opened = Some(Opened { file, plan: *plan });
                Ok(())
            }
            Err(Failed) => Err(LayRefused::Failed),
        }
    }

    fn read(&mut self, slot: u32, out: &mut [u8]) -> Result<(), Failed> {
        self.counts.call(Op::Read, slot);
        let opened = self.opened.as_ref().unwrap();
        let answer = opened.file.read_exact_at(out, opened.plan.offset(slot));
        self.counts.settle(answer)
    }

    fn write(&mut self, slot: u32, bytes: &[u8]) -> Result<(), Failed> {
        self.counts.call(Op::Write, slot);
        let opened = self.opened.as_ref().unwrap();
        let answer = opened.file.write_all_at(bytes, opened.plan.offset(slot));
        self.counts.settle(answer)
    }

    fn calls(&self) -> u64 {
        self.counts.calls
    }

    fn last_call(&self) -> Option<(Op, u32)> {
        self.counts.last_call
    }
}

/// The lengths of all blocks, together.
#[tactic(auto, using(crate::proofs::Lengths::last_small, crate::proofs::Lengths::last_is))]
fn whole_length(plan: &Plan) -> u64
    ensures { result ≡ offset_at plan.now (slots_of plan.now) }
{
    let last = plan.number(Slot {
        region: Region::Output,
        index: plan.b() - 1,
    });
    plan.offset(last) + u64::from(plan.length(last))
}

/// Makes the file anew, of this many zero bytes. It is locked until it is closed, and left alone where another device
/// has it locked.
fn open<R: Files<File = File>>(rt: &R, path: &str, length: u64) -> io::Result<File> {
    let file = OpenOptions::new()
        .read(true)
        .write(true)
        .create(true)
        .open(rt, path)?;
    file.try_lock()?;
    file.set_len(0)?;
    file.set_len(length)?;
    Ok(file)
}
