//! External memory that is not trusted: the blocks of a shuffle, which a device keeps by the numbers of their slots.
//!
//! A device fails only where its count of faults rose, and counts each read and each write. What its blocks hold is
//! told to contracts where the device can tell it. `MemDevice` lives in memory, fails and flips bits where it is asked
//! to, and tells its blocks where it flips none. A `Recorder` makes the accesses to a device, keeps them in order, and
//! keeps a log of what each carried, which only clauses read: it is faithful where each read gave what was written last
//! in its slot. Stands on the slots of a plan, esa_params, and on the causes of faults, esa_outside.
#![tactic(auto)]

mod counts;
mod device;
mod file;
mod fixed;
mod laws;
mod log;
mod memory;
mod recorder;

pub use device::{Device, LayRefused};
pub use file::FileDevice;
pub use fixed::FixedDevice;
pub use laws::{beginnings_are_faithful, latest_writes_stay};
pub use memory::{Flip, MemDevice};
pub use recorder::Recorder;

#[cfg(test)]
mod tests;
