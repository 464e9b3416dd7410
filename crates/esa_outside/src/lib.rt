//! The outside: files, a printer and a source of records, as traits that say what a call may do to them.
//!
//! What a cabinet or a printer holds is told to contracts where the implementation can tell it, and a
//! call gives up only where a count of faults rose, or where a told file is not there or ends before.
//! `MemCabinet` and `MemPrinter` live in memory and tell all. `HostCabinet` and `HostPrinter` are the
//! real ones, and tell nothing. A `Log` keeps what was noted, for clauses alone. Stands on esa_lists.
#![tactic(auto)]

mod cabinet;
mod heard;
mod host;
mod log;
mod memory;
mod memory_printer;
mod printer;
mod records;
mod schedule;
mod whole;

pub use cabinet::Cabinet;
pub use host::{HostCabinet, HostPrinter};
pub use log::{Log, Noted};
pub use memory::MemCabinet;
pub use memory_printer::MemPrinter;
pub use printer::Printer;
pub use records::Records;
pub use whole::{ReadRefused, read_whole};

/// The answer of a call to the outside that did not do what it was asked.
#[derive(Clone, Copy, PartialEq, Eq, Debug)]
pub struct Failed;

/// What a file is for, or the printer.
#[derive(Clone, Copy, PartialEq, Eq, Debug)]
pub enum Role {
    Job,
    Keys,
    Drops,
    Turns,
    Input,
    Coins,
    Output,
    Trace,
    TurnsOut,
    Printer,
}

#[cfg(test)]
mod tests;
