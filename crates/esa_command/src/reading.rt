//! Files that are read whole.

ghost use Rattle.std.specs.Prelude.{◌+◌};
ghost use Rattle.esa_refusal.specs.Source.{place_of};
ghost use Rattle.esa_command.specs.Judged.{Judged};
ghost use Rattle.esa_command.specs.Stand.{stand};
ghost use Rattle.esa_command.specs.Step.{file};

use esa_job::Command;
use esa_outside::{Cabinet, ReadRefused, read_whole};
use esa_refusal::{Refusal, Source, Stop};
use std::alloc::Global;

/// Reads a file of a command whole.
pub fn read_file<K: Cabinet>(
    alloc: Global,
    cabinet: &mut K,
    command: Command,
    source: Source,
    name: &str,
) -> Result<Vec<u8>, Stop>
    ensures { Judged (place_of source) (place_of source + 1) (λ bytes. bytes.items) (file command source name.now)
        (stand K.told K.faults K.heard cabinet.old) (stand K.told K.faults K.heard cabinet.new) result }
{
    match read_whole(alloc, cabinet, name, source.limit(command)) {
        Ok(bytes) => Ok(bytes),
        Err(ReadRefused::Failed) => Err(Stop::Unread(source)),
        Err(ReadRefused::TooLarge { .. }) => Err(Stop::Refused(Refusal::Large(source.role()))),
        Err(ReadRefused::OutOfMemory) => Err(Stop::OutOfMemory),
    }
}
