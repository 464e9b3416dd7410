//! The command that a call asks for, by who performs it.

ghost use Rattle.std.specs.Prelude.{◌≡◌, [], Some, true, false};
ghost use Rattle.esa_refusal.specs.declared.refusal.Refusal.TheVariants.{NotBuilt};
ghost use Rattle.esa_refusal.specs.declared.status.End.TheVariants.{Stopped};
ghost use Rattle.esa_refusal.specs.declared.status.Status.TheVariants as status;
ghost use Rattle.esa_command.specs.Ends.{Ends};
ghost use Rattle.esa_command.specs.Stand.{stand};
ghost use Rattle.esa_running.specs.RunEnded.{history_in};
ghost use Rattle.esa_cli.specs.Answers.{EndsAs};
ghost use Rattle.esa_cli.specs.Meaning.{IsDeviceless, is_built, steps_of, meaning_of};

use crate::call::Call;
use crate::performs::{Crew, OneThread, Performs};
use esa_analysing::{analyse, histogram, recover, upgrade};
use esa_device::{Device, Recorder};
use esa_encoding::{encode, generate};
use esa_job::Command;
use esa_outside::{Cabinet, Printer};
use esa_refusal::{End, Refusal, Status};
use esa_running::{Ended, Purpose, run, run_threaded};
use esa_shuffling::{batch, plan};
use std::alloc::Global;
use std::sync::Wait;
use std::thread::Threads;

/// Runs a command that uses no device.
fn run_alone<S: Performs, K: Cabinet, P: Printer>(
    performs: &S,
    alloc: Global,
    cabinet: &mut K,
    printer: &mut P,
    call: Call<'_>,
) -> End
    requires ready { S.ready performs.now }
    requires alone { IsDeviceless (Some (call.command, call.job.now)) }
    ensures ends { Ends (steps_of S.crews (call.entry.command, call.entry.job.now))
        (stand K.told K.faults K.heard cabinet.old) (stand K.told K.faults K.heard cabinet.new)
        (stand P.told P.faults P.heard printer.old) (stand P.told P.faults P.heard printer.new) result }
    ensures unbuilt { is_built call.entry.command ≡ false → result ≡ Stopped (status.Refused (NotBuilt call.entry.command)) }
{
    match call.command {
        Command::Gen => generate(alloc, cabinet, printer, false, call.job),
        Command::Encode => encode(alloc, cabinet, printer, false, call.job),
        Command::Batch => batch(alloc, cabinet, printer, false, call.job),
        Command::Intake => performs.gather(alloc, cabinet, printer, call.job),
        Command::Analyse => analyse(alloc, cabinet, printer, false, call.job),
        Command::Histogram => histogram(alloc, cabinet, printer, false, call.job),
        Command::Upgrade => upgrade(alloc, cabinet, printer, false, call.job),
        Command::Recover => recover(alloc, cabinet, printer, false, call.job),
        Command::Plan => plan(alloc, cabinet, printer, false, call.job),
        command => End::Stopped(Status::Refused(Refusal::NotBuilt(command))),
    }
}

/// Runs the command of a call on one thread.
pub(crate) fn run_call<K: Cabinet, P: Printer, V: Device>(
    alloc: Global,
    cabinet: &mut K,
    printer: &mut P,
    recorder: Recorder<V>,
    call: Call<'_>,
) -> Ended<V>
    requires { recorder.trace ≡ [] }
    ensures ends { EndsAs (meaning_of V.told V.faults false (record { recorder = recorder; recorder_now = result.recorder; history = history_in result.history })
        (call.entry.command, call.entry.job.now))
        (stand K.told K.faults K.heard cabinet.old) (stand K.told K.faults K.heard cabinet.new)
        (stand P.told P.faults P.heard printer.old) (stand P.told P.faults P.heard printer.new) result.end }
    ensures unbuilt { is_built call.entry.command ≡ false → result.end ≡ Stopped (status.Refused (NotBuilt call.entry.command)) }
{
    match call.command {
        Command::Shuffle => run(alloc, Purpose::HandOn, cabinet, printer, recorder, call.job),
        Command::Run => run(alloc, Purpose::Count, cabinet, printer, recorder, call.job),
        _ => Ended {
            end: run_alone(&OneThread, alloc, cabinet, printer, call),
            recorder,
            history: None,
        },
    }
}

/// Runs the command of a call where threads can be started.
pub(crate) fn run_call_threaded<
    R: Threads + Wait + Sync,
    K: Cabinet,
    P: Printer,
    V: Device + Send + Drop,
>(
    rt: &R,
    alloc: Global,
    cabinet: &mut K,
    printer: &mut P,
    recorder: Recorder<V>,
    call: Call<'_>,
) -> Ended<V>
    requires { recorder.trace ≡ [] }
    ensures ends { EndsAs (meaning_of V.told V.faults true (record { recorder = recorder; recorder_now = result.recorder; history = history_in result.history })
        (call.entry.command, call.entry.job.now))
        (stand K.told K.faults K.heard cabinet.old) (stand K.told K.faults K.heard cabinet.new)
        (stand P.told P.faults P.heard printer.old) (stand P.told P.faults P.heard printer.new) result.end }
    ensures unbuilt { is_built call.entry.command ≡ false → result.end ≡ Stopped (status.Refused (NotBuilt call.entry.command)) }
{
    match call.command {
        Command::Shuffle => run_threaded(
            rt,
            alloc,
            Purpose::HandOn,
            cabinet,
            printer,
            recorder,
            call.job,
        ),
        Command::Run => run_threaded(
            rt,
            alloc,
            Purpose::Count,
            cabinet,
            printer,
            recorder,
            call.job,
        ),
        _ => Ended {
            end: run_alone(&Crew { rt }, alloc, cabinet, printer, call),
            recorder,
            history: None,
        },
    }
}
