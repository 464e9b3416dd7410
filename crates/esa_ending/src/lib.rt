//! How a run ends: for each ending a record of what is seen, and the laws that follow.
//!
//! The definitions of `specs/` say, of a run that succeeded, overflowed, met a fault of the device, a tampered block or
//! a fault of the batch file, which accesses and which history are stored, which count of faults rose, and in which order
//! the records come out. Each law is what a function with an empty body ensures. This crate stands on the definitions of
//! a shuffle and their laws, on what `esa_outside` calls the rise of a count, and on what `esa_crowds` forwards. It takes
//! no memory.
#![tactic(auto)]

#[cfg(test)]
mod cases;
pub mod databases;
pub mod decisions;
pub mod fronts;
pub mod outputs;
pub mod stored;
