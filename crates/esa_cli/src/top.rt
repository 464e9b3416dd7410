//! The top calls: every command, from the words of a command line to the files and lines that it writes and prints.

ghost use Rattle.std.specs.Prelude.{◌≡◌, [], false, true, map, string_bytes};
ghost use Rattle.esa_command.specs.Stand.{stand};
ghost use Rattle.esa_running.specs.RunEnded.{history_in};
ghost use Rattle.esa_cli.specs.Answers.{Answers};
ghost use Rattle.esa_cli.specs.Call.{call_of};

use crate::call::call_of;
use crate::dispatch::{run_call, run_call_threaded};
use esa_command::tell;
use esa_device::{Device, Recorder};
use esa_floor::History;
use esa_outside::{Cabinet, Printer};
use esa_refusal::{End, Status};
use std::alloc::Global;
use std::sync::Wait;
use std::thread::Threads;

/// How a call ended, and what it leaves beside files and lines.
#[derive(Drop)]
pub struct Ended<V: Device> {
    pub status: Status,
    /// The recorder, with all accesses that were made.
    pub recorder: Recorder<V>,
    /// The turns of a run's attempts, and the owner's entries. There is none where no batch was loaded.
    pub history: Option<History>,
}

/// Runs the command that the words after the program's name ask for, on one thread. It waits for nobody and returns.
///
/// What the files of the cabinet hold decides what is written and printed, and of a run also what its accesses to the device
/// come to. Only want of memory is free.
pub fn esa_plain<K: Cabinet, P: Printer, V: Device>(
    alloc: Global,
    words: &[String],
    cabinet: &mut K,
    printer: &mut P,
    recorder: Recorder<V>,
) -> Ended<V>
    requires { recorder.trace ≡ [] }
    ensures { Answers V.told V.faults false (call_of (map string_bytes words.now)) (record {
      cabinet = stand K.told K.faults K.heard cabinet.old;
      cabinet_now = stand K.told K.faults K.heard cabinet.new;
      printer = stand P.told P.faults P.heard printer.old;
      printer_now = stand P.told P.faults P.heard printer.new;
      used = record { recorder = recorder; recorder_now = result.recorder; history = history_in result.history };
      ended = result.status;
    }) }
{
    match call_of(words) {
        None => Ended {
            status: tell(End::Stopped(Status::Usage), printer),
            recorder,
            history: None,
        },
        Some(call) => {
            let ended = run_call(alloc, cabinet, printer, recorder, call);
            Ended {
                status: tell(ended.end, printer),
                recorder: ended.recorder,
                history: ended.history,
            }
        }
    }
}

/// The same where threads can be started: a job of intake, run or shuffle may ask for a crew. What intake comes to is the same
/// then. A shuffle comes to what is said by the turns that its workers stored. It may wait for the threads that it starts.
pub fn esa<R: Threads + Wait + Sync, K: Cabinet, P: Printer, V: Device + Send + Drop>(
    rt: &R,
    alloc: Global,
    words: &[String],
    cabinet: &mut K,
    printer: &mut P,
    recorder: Recorder<V>,
) -> Ended<V>
    requires { recorder.trace ≡ [] }
    ensures { Answers V.told V.faults true (call_of (map string_bytes words.now)) (record {
      cabinet = stand K.told K.faults K.heard cabinet.old;
      cabinet_now = stand K.told K.faults K.heard cabinet.new;
      printer = stand P.told P.faults P.heard printer.old;
      printer_now = stand P.told P.faults P.heard printer.new;
      used = record { recorder = recorder; recorder_now = result.recorder; history = history_in result.history };
      ended = result.status;
    }) }
{
    match call_of(words) {
        None => {
            let status = tell(End::Stopped(Status::Usage), printer);
            Ended {
                status,
                recorder,
                history: None,
            }
        }
        Some(call) => {
            let ran = run_call_threaded(rt, alloc, cabinet, printer, recorder, call);
            Ended {
                status: tell(ran.end, printer),
                recorder: ran.recorder,
                history: ran.history,
            }
        }
    }
}
