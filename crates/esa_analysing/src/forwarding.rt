//! What a shuffler handed on.

ghost use Rattle.std.specs.Prelude.{IfOk};
ghost use Rattle.esa_job.specs.Seen.{request_of, Needs};
ghost use Rattle.esa_analysing.specs.Analyse.{forward_file, AreWhole};
ghost use Rattle.esa_command.specs.Judged.{Judged};
ghost use Rattle.esa_command.specs.Stand.{stand};

use esa_command::read_file;
use esa_job::{Command, Job, JobField};
use esa_outside::Cabinet;
use esa_refusal::{Source, Stop};
use esa_threshold::{Forwarded, forward_of};
use std::alloc::Global;

/// Reads the forward file of a job.
pub fn take_forward<K: Cabinet>(
    alloc: Global,
    cabinet: &mut K,
    command: Command,
    job: &Job,
) -> Result<Forwarded, Stop>
    requires { Needs job.now JobField.Input }
    ensures judged { Judged 4 5 (λ forwarded. forwarded) (forward_file command (request_of job.now))
        (stand K.told K.faults K.heard cabinet.old) (stand K.told K.faults K.heard cabinet.new) result }
    ensures whole { IfOk result AreWhole }
{
    let bytes = read_file(alloc, cabinet, command, Source::Input, job.input())?;
    Ok(forward_of(bytes)?)
}
