//! Runs a case.

ghost use Rattle.std.specs.Prelude.{◌≡◌, []};

use crate::readers::reader_of;
use esa_case_file::{Call, Case, Run};
use esa_case_parts::{
    cabinet_for, judge_files, judge_run, printer_for, read, recorder_for, recorder_on_disk,
    recorder_that_holds,
};
use esa_cli::{End, Status, esa, esa_plain, tell};
use esa_device::{Device, MemDevice, Recorder};
use esa_outside::{MemCabinet, MemPrinter};
use std::alloc::{AllocError, Global};
use std::fs::File as HostFile;
use std::rt::Files;
use std::sync::Wait;
use std::thread::Threads;

/// The file that has the external memory where a run has it in one. It is in the folder that the cases run in.
pub const DISK: &str = "esa-device.bin";

/// Runs a case, and says what differs from what it says.
pub fn run_case<R: Files<File = HostFile> + Clone + Drop + Threads + Wait + Sync>(
    rt: &R,
    alloc: Global,
    case: &Case,
) -> Result<Vec<String>, AllocError> {
    let mut cabinet = cabinet_for(alloc, case)?;
    let mut printer = printer_for(alloc, case)?;
    let mut differences = Vec::new(alloc);
    for (place, run) in case.runs.iter().enumerate() {
        let before = printer.printed().len();
        let status = perform(rt, alloc, case, run, &mut cabinet, &mut printer)?.code();
        let printed = printer.printed().get(before..).unwrap_or_default();
        judge_run(alloc, &mut differences, place, run, status, printed)?;
    }
    judge_files(alloc, &mut differences, case, &cabinet)?;
    Ok(differences)
}

/// Makes a call.
fn perform<R: Files<File = HostFile> + Clone + Drop + Threads + Wait + Sync>(
    rt: &R,
    alloc: Global,
    case: &Case,
    run: &Run,
    cabinet: &mut MemCabinet,
    printer: &mut MemPrinter,
) -> Result<Status, AllocError> {
    let words = &run.words;
    match run.call {
        Call::Program => match &case.device_holds {
            Some(held) => {
                let recorder = recorder_that_holds(alloc, held)?;
                Ok(call_plain(alloc, words, cabinet, printer, recorder))
            }
            None => {
                let recorder = recorder_for(alloc, case)?;
                Ok(call_plain(alloc, words, cabinet, printer, recorder))
            }
        },
        Call::Disk => {
            let recorder = recorder_on_disk(rt, alloc, DISK)?;
            Ok(call_plain(alloc, words, cabinet, printer, recorder))
        }
        Call::Crew => {
            let recorder = recorder_for(alloc, case)?;
            Ok(call_threaded(rt, alloc, words, cabinet, printer, recorder))
        }
        Call::Reader => Ok(call_reader(alloc, words, cabinet, printer)),
    }
}

/// Calls the program on one thread.
fn call_plain<V: Device + Drop>(
    alloc: Global,
    words: &[String],
    cabinet: &mut MemCabinet,
    printer: &mut MemPrinter,
    recorder: Recorder<V>,
) -> Status
    requires { recorder.trace ≡ [] }
{
    esa_plain(alloc, words, cabinet, printer, recorder).status
}

/// Calls the program where it can start threads.
fn call_threaded<R: Threads + Wait + Sync>(
    rt: &R,
    alloc: Global,
    words: &[String],
    cabinet: &mut MemCabinet,
    printer: &mut MemPrinter,
    recorder: Recorder<MemDevice>,
) -> Status
    requires { recorder.trace ≡ [] }
{
    esa(rt, alloc, words, cabinet, printer, recorder).status
}

/// Calls a reader. Words that name none end as a wrong command line.
fn call_reader(
    alloc: Global,
    words: &[String],
    cabinet: &mut MemCabinet,
    printer: &mut MemPrinter,
) -> Status {
    let status = match reader_of(words) {
        Some((reader, file)) => read(alloc, reader, file, cabinet),
        None => Status::Usage,
    };
    match status {
        Status::Ok => Status::Ok,
        status => tell(End::Stopped(status), printer),
    }
}
