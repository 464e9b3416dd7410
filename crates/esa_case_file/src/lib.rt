//! Worked cases as text that a person writes: what a case is, and how a file of cases is read.
//!
//! docs/TESTING.md has the form. Stands on the kit's `hex` alone, so that a case can be of any command. It promises
//! nothing but to be safe and to end: a file that isn't in the form is refused, and a program that runs its cases
//! compares each with what it says.
#![tactic(auto)]

mod each;
mod piece;
mod reader;
mod statement;
mod wrong;

pub use reader::read_cases;
pub use wrong::{Mistake, Wrong};

/// A file's name and its bytes.
#[derive(Drop)]
pub struct File {
    pub name: String,
    pub bytes: Vec<u8>,
}

/// What a run calls.
#[derive(Clone, Copy, PartialEq, Eq, Debug)]
pub enum Call {
    /// The program, which runs on one thread.
    Program,
    /// The program, where it can start threads.
    Crew,
    /// The program, which runs on one thread, with its external memory in a file of the machine.
    Disk,
    /// A reader of one file.
    Reader,
}

/// One call: what is called with which words, and what it must print and end with.
#[derive(Drop)]
pub struct Run {
    pub call: Call,
    pub words: Vec<String>,
    pub printed: Vec<u8>,
    pub status: u8,
}

/// A bit that a read of the device gives otherwise than it was written: at this access `mask`, which has this bit alone, is
/// xored to the byte at the place `byte`, from 0 on.
#[derive(Clone, Copy, PartialEq, Eq, Debug)]
pub struct Flip {
    pub access: u64,
    pub byte: u32,
    pub mask: u8,
}

/// A block of the device that isn't what was written there: each read of this slot gives these bytes, if they have its length.
#[derive(Drop)]
pub struct Held {
    pub slot: u32,
    pub bytes: Vec<u8>,
}

/// Calls, one after another over the same files, and what they must leave.
///
/// Each call has a device of its own, whose accesses are counted from 1 on. Of two files of one name the later counts. What no file of `left` names must be as it was before the first call.
#[derive(Drop)]
pub struct Case {
    pub name: String,
    /// Whether other cases follow that the same lines state for other numbers.
    pub followed: bool,
    /// The files before the first call.
    pub files: Vec<File>,
    /// The numbers of the cabinet's calls that fail, from 1 on.
    pub cabinet_fails: Vec<u64>,
    /// The numbers of the printer's calls that fail, from 1 on.
    pub printer_fails: Vec<u64>,
    /// The numbers of the device's accesses that fail in each call. With 0 it can't be laid.
    pub device_fails: Vec<u64>,
    /// The bits that flip in each call.
    pub device_flips: Vec<Flip>,
    /// The block that the device holds in each call of the program on one thread over a device in memory. Then none of its
    /// accesses fails, and no bit flips.
    pub device_holds: Option<Held>,
    pub runs: Vec<Run>,
    /// The files that the calls must leave otherwise than they were before.
    pub left: Vec<File>,
}
