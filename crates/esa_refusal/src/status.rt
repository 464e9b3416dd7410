//! How a command ended.

ghost use Rattle.std.specs.Prelude.{◌≡◌};
ghost use Rattle.esa_refusal.specs.Status.{has_line, status_code, status_of, status_text};

use crate::failures::Failures;
use crate::line::Line;
use crate::refusal::{Refusal, add_numbered, add_refusal};
use crate::stop::Stop;
use crate::words::word_of_role;
use esa_outside::Role;

/// Where a device failed.
#[derive(Clone, Copy, PartialEq, Eq, Debug)]
pub enum DeviceAt {
    /// It could not be laid.
    Lay,
    /// An access to this slot failed.
    Slot(u32),
}

/// How a command ended.
#[derive(Clone, Copy, PartialEq, Eq, Debug)]
pub enum Status {
    /// All was read, written and printed.
    Ok,
    /// Each attempt of the run failed.
    Overflow(Failures),
    /// The words aren't a command and a file name.
    Usage,
    /// What was given is refused. Nothing was written.
    Refused(Refusal),
    /// The device failed.
    DeviceFault(DeviceAt),
    /// A file or the printer failed.
    OutsideFault(Role),
    /// Memory ran out before anything was written.
    OutOfMemory,
    /// What was read of this slot isn't what was written to it.
    Tampered(u32),
}

/// How a command ends, before its own line is printed.
#[derive(Clone, Copy, PartialEq, Eq, Debug)]
pub enum End {
    /// Its status's own lines are still to be printed.
    Stopped(Status),
    /// All is printed.
    Settled(Status),
}

impl Status {
    /// The number that the process ends with.
    pub fn code(&self) -> u8
        ensures { result ≡ status_code self.now }
    {
        match self {
            Status::Ok => 0,
            Status::Overflow(_) => 1,
            Status::Usage => 2,
            Status::Refused(_) => 3,
            Status::DeviceFault(_) => 4,
            Status::OutsideFault(_) => 5,
            Status::OutOfMemory => 6,
            Status::Tampered(_) => 7,
        }
    }

    /// Whether the status has a line of its own: not Ok, whose lines are the command's, and not a
    /// fault of the printer in them.
    pub fn has_line(&self) -> bool
        ensures { result ≡ has_line self.now }
    {
        match self {
            Status::Ok | Status::OutsideFault(Role::Printer) => false,
            _ => true,
        }
    }
}

impl From<Stop> for Status {
    ghost from_gives = { λ stop status. status ≡ status_of stop };

    fn from(stop: Stop) -> Status {
        match stop {
            Stop::Refused(refusal) => Status::Refused(refusal),
            Stop::Unread(source) => Status::OutsideFault(source.role()),
            Stop::OutOfMemory => Status::OutOfMemory,
        }
    }
}

/// The own line of a status other than Ok, without its newline. After an overflow the lines of its attempts come before it.
pub fn line_of(status: &Status) -> Line
    ensures { result ≡ status_text status.now }
{
    let mut line = Line::new();
    match status {
        Status::Ok => {}
        Status::Overflow(_) => line.word("overflow"),
        Status::Usage => line.word("usage: esa COMMAND JOBFILE"),
        Status::Refused(refusal) => {
            line.word("refused: ");
            add_refusal(&mut line, refusal);
        }
        Status::DeviceFault(DeviceAt::Lay) => line.word("device fault: lay"),
        Status::DeviceFault(DeviceAt::Slot(slot)) => {
            add_numbered(&mut line, "device fault: slot ", u64::from(*slot))
        }
        Status::OutsideFault(role) => {
            line.word("outside fault: ");
            line.word(word_of_role(*role));
        }
        Status::OutOfMemory => line.word("out of memory"),
        Status::Tampered(slot) => { add_numbered(&mut line, "tampered: slot ", u64::from(*slot)) }
    }
    line
}
