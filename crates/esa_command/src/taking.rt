//! What several commands take in: the job and its keys.

ghost use Rattle.std.specs.Prelude.{◌≡◌, IsSome, IfOk, true};
ghost use Rattle.esa_job.specs.Seen.{request_of, Needs};
ghost use Rattle.esa_job.specs.Keys.{needs_key, key_of};
ghost use Rattle.esa_command.specs.Judged.{Judged};
ghost use Rattle.esa_command.specs.Stand.{stand};
ghost use Rattle.esa_command.specs.Taking.{job_file, keys_file};

use crate::reading::read_file;
use esa_job::{Command, Job, JobField, KeyField, KeyRing};
use esa_outside::Cabinet;
use esa_refusal::{Source, Stop};
use std::alloc::Global;

/// Reads the job file of a command.
pub fn take_job<K: Cabinet>(
    alloc: Global,
    cabinet: &mut K,
    command: Command,
    crew_allowed: bool,
    name: &str,
) -> Result<Job, Stop>
    ensures judged { Judged 0 1 request_of (job_file command crew_allowed name.now)
        (stand K.told K.faults K.heard cabinet.old) (stand K.told K.faults K.heard cabinet.new) result }
    ensures command { IfOk result (λ job. (request_of job).command ≡ command) }
{
    let text = read_file(alloc, cabinet, command, Source::Job, name)?;
    Ok(Job::read(alloc, command, crew_allowed, name, &text)?)
}

/// Reads the keys file of a job. `shares` says whether an encode job has shares.
pub fn take_keys<K: Cabinet>(
    alloc: Global,
    cabinet: &mut K,
    command: Command,
    shares: bool,
    job: &Job,
) -> Result<KeyRing, Stop>
    requires { Needs job.now JobField.Keys }
    ensures judged { Judged 1 2 (λ ring. ring) (keys_file command shares (request_of job.now))
        (stand K.told K.faults K.heard cabinet.old) (stand K.told K.faults K.heard cabinet.new) result }
    ensures needed { IfOk result (λ ring. (key : KeyField) → needs_key command shares key ≡ true → IsSome (key_of ring key)) }
{
    let text = read_file(alloc, cabinet, command, Source::Keys, job.keys())?;
    Ok(KeyRing::read(alloc, command, shares, &text)?)
}
