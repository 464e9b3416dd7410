//! The batch of several texts of submissions.

ghost use Rattle.std.specs.Prelude.{◌≡◌, ◌⊎◌, ◌+◌, ◌++◌, ◌≤◌, ◌<◌, ◌^◌, Ok, None, Some, OnOk, IfOk, IfErr, length, option_map};
ghost use Rattle.std.specs.List.{concat};
ghost use Rattle.esa_bytes.specs.Lines.{text_lines};
ghost use Rattle.esa_batcher.specs.Finishing.{envelopes_of};
ghost use Rattle.esa_batcher.specs.declared.refused.AddRefused.TheVariants as add;
ghost use Rattle.esa_shuffling.specs.Batch.{StopsBatching};
ghost use Rattle.esa_gathering.specs.Together.{texts_of, all_lines, first_refused, first_file_refused, stop_of_file, StopsFor, batched_together};

use esa_batcher::{AddRefused, Batch, Batcher};
use esa_bytes::{line_count, split_line};
use esa_params::{Form, MOST_RECORDS};
use esa_refusal::{Refusal, Stop};
use std::alloc::Global;

/// How many lines texts have together.
pub(crate) fn line_total(texts: &[Vec<u8>]) -> u64
    requires { length (concat (texts_of texts.now)) < 2 ^ 63 }
    ensures { result ≡ length (all_lines (texts_of texts.now)) }
{
    let mut total = 0;
    for place in 0..texts.len() {
        total += line_count(&texts[place]);
    }
    total
}

/// Adds the envelopes of all lines of a text.
fn add_text(batcher: &mut Batcher, text: &[u8]) -> Result<(), AddRefused>
    requires { length batcher.old.list + length (text_lines text.now) ≤ 262144 }
    ensures accepted { OnOk result (first_refused batcher.old.form 1 (text_lines text.now) ≡ None) }
    ensures added { OnOk result (batcher.new.list ≡ batcher.old.list ++ envelopes_of batcher.old.form (text_lines text.now)) }
    ensures form { batcher.new.form ≡ batcher.old.form }
    ensures refused { IfErr result (λ refused. (refused ≡ add.OutOfMemory)
        ⊎ (option_map add.Line (first_refused batcher.old.form 1 (text_lines text.now)) ≡ Some refused)) }
{
    let mut rest = text;
    let mut number = 0;
    while let Some((line, behind)) = split_line(rest) {
        number += 1;
        batcher.add(line, number)?;
        rest = behind;
    }
    Ok(())
}

/// Why a command stops where a line of the file of this number isn't added.
fn stop_in(file: u32, refused: AddRefused) -> Stop
    ensures { result ≡ stop_of_file file refused }
{
    match refused {
        AddRefused::Line(refused) => Stop::Refused(Refusal::File { file, refused }),
        AddRefused::TooMany { n } => Stop::Refused(Refusal::Lines { n }),
        AddRefused::OutOfMemory => Stop::OutOfMemory,
    }
}

/// Adds the envelopes of all lines of texts, one text after another. The first is the file of number 1.
fn add_texts(batcher: &mut Batcher, texts: &[Vec<u8>]) -> Result<(), Stop>
    requires few { length texts.now ≤ 16 }
    requires room { length batcher.old.list + length (all_lines (texts_of texts.now)) ≤ 262144 }
    ensures accepted { OnOk result (first_file_refused batcher.old.form 1 (texts_of texts.now) ≡ None) }
    ensures added { OnOk result (batcher.new.list ≡ batcher.old.list ++ envelopes_of batcher.old.form (all_lines (texts_of texts.now))) }
    ensures form { batcher.new.form ≡ batcher.old.form }
    ensures refused { IfErr result (StopsFor (first_file_refused batcher.old.form 1 (texts_of texts.now))) }
{
    for place in 0..texts.len() {
        if let Err(refused) = add_text(batcher, &texts[place]) {
            return Err(stop_in(place as u32 + 1, refused));
        }
    }
    Ok(())
}

/// The batch of all lines of texts. More lines than a batch has records are refused before any is looked at, then the first
/// bad line of the first text that has one, and then too few lines.
pub(crate) fn batch_together(
    alloc: Global,
    form: Form,
    epoch: u32,
    m: u32,
    texts: &[Vec<u8>],
) -> Result<Batch, Stop>
    requires few { length texts.now ≤ 16 }
    requires small { length (concat (texts_of texts.now)) < 2 ^ 63 }
    ensures ok { IfOk result (λ batch. batched_together form epoch m (texts_of texts.now) ≡ Ok batch) }
    ensures err { IfErr result (StopsBatching (batched_together form epoch m (texts_of texts.now))) }
{
    let total = line_total(texts);
    if total > u64::from(MOST_RECORDS) {
        return Err(Stop::Refused(Refusal::Lines { n: total }));
    }
    let mut batcher = Batcher::make(alloc, form, total as u32)?;
    add_texts(&mut batcher, texts)?;
    Ok(batcher.finish(epoch, m)?)
}
