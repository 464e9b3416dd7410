//! The inputs of a job, each read whole.

ghost use Rattle.std.specs.Prelude.{◌+◌, ◌≤◌, ◌<◌, ◌^◌, IfOk, length};
ghost use Rattle.std.specs.List.{concat};
ghost use Rattle.esa_job.specs.declared.command.Command.TheVariants as command;
ghost use Rattle.esa_job.specs.Request.{inputs_at};
ghost use Rattle.esa_job.specs.Seen.{request_of};
ghost use Rattle.esa_refusal.specs.declared.source.Source.TheVariants as source;
ghost use Rattle.esa_command.specs.Judged.{Judged};
ghost use Rattle.esa_command.specs.Stand.{stand};
ghost use Rattle.esa_command.specs.Step.{file};
ghost use Rattle.esa_gathering.specs.Together.{texts_of};
ghost use Rattle.esa_gathering.specs.Intake.{input_files};

use esa_command::read_file;
use esa_job::{Command, Job};
use esa_outside::Cabinet;
use esa_params::MOST_INPUTS;
use esa_refusal::{Source, Stop};
use std::alloc::Global;

/// Reads the input of this place, counted from 0.
fn take_text<K: Cabinet>(
    alloc: Global,
    cabinet: &mut K,
    place: u32,
    name: &str,
) -> Result<Vec<u8>, Stop>
    ensures judged { Judged (6 + place) (6 + place + 1) (λ text. text.items) (file command.Intake (source.Inputs place) name.now)
        (stand K.told K.faults K.heard cabinet.old) (stand K.told K.faults K.heard cabinet.new) result }
    ensures short { IfOk result (λ text. length text.items ≤ 268435456) }
{
    read_file(alloc, cabinet, Command::Intake, Source::Inputs(place), name)
}

/// Reads the inputs of a job, one after another.
pub(crate) fn take_texts<K: Cabinet>(
    alloc: Global,
    cabinet: &mut K,
    job: &Job,
) -> Result<Vec<Vec<u8>>, Stop>
    ensures judged { Judged 6 22 (λ texts. texts_of texts.items) (input_files 0 (inputs_at (request_of job.now)))
        (stand K.told K.faults K.heard cabinet.old) (stand K.told K.faults K.heard cabinet.new) result }
    ensures few { IfOk result (λ texts. length texts.items ≤ 16) }
    ensures small { IfOk result (λ texts. length (concat (texts_of texts.items)) < 2 ^ 63) }
{
    let mut texts = Vec::with_capacity(alloc, MOST_INPUTS)?;
    let mut place = 0;
    while let Some(name) = job.inputs(place) {
        let text = take_text(alloc, cabinet, place as u32, name)?;
        texts.push_reserved(text);
        place += 1;
    }
    Ok(texts)
}
