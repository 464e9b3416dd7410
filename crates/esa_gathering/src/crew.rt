//! The batch of several texts of submissions, with a thread for each text.

ghost use Rattle.std.specs.Prelude.{◌≡◌, ◌≤◌, ◌<◌, ◌^◌, ℕ, [], Ok, Some, IfOk, IfErr, IfSome, length, map, slice_index_or};
ghost use Rattle.std.specs.List.{concat};
ghost use Rattle.esa_bytes.specs.Lines.{text_lines};
ghost use Rattle.esa_batcher.specs.declared.refused.AddRefused.TheVariants as add;
ghost use Rattle.esa_shuffling.specs.Batch.{StopsBatching};
ghost use Rattle.esa_gathering.specs.Crew.{HasAll};
ghost use Rattle.esa_gathering.specs.Merging.{IsOfText};
ghost use Rattle.esa_gathering.specs.Together.{texts_of, all_lines, batched_together};

use crate::merging::{TextBatch, merge, text_batch};
use crate::together::{batch_together, line_total};
use esa_batcher::{AddRefused, Batch, Batcher};
use esa_params::{Form, MOST_RECORDS};
use esa_refusal::Stop;
use std::alloc::{AllocError, Global};
use std::thread;
use std::thread::Threads;

/// The batch of the text at a place.
fn text_batch_at(alloc: Global, form: Form, texts: &[Vec<u8>], place: usize) -> Option<TextBatch>
    requires { place < length texts.now }
    ensures { IfSome result (IsOfText form (text_lines (slice_index_or (texts_of texts.now) place []))) }
{
    text_batch(alloc, form, &texts[place])
}

/// The batch of each text, made by a thread of its own.
fn text_batches<R: Threads + Sync>(
    rt: &R,
    alloc: Global,
    form: Form,
    texts: &[Vec<u8>],
) -> Result<Vec<Option<TextBatch>>, AllocError>
    ensures number { IfOk result (λ slots. length slots.items ≡ length texts.now) }
    ensures each { IfOk result (λ slots. (place : ℕ) (d : _) → place < length texts.now
        → IfSome (slice_index_or slots.items place d) (IsOfText form (text_lines (slice_index_or (texts_of texts.now) place [])))) }
{
    thread::map_indices(
        rt,
        alloc,
        texts.len(),
        &|place| text_batch_at(alloc, form, texts, place),
    )
}

/// What is in all slots. None where one is empty.
fn all_made(
    alloc: Global,
    slots: Vec<Option<TextBatch>>,
) -> Result<Option<Vec<TextBatch>>, AllocError>
    ensures { IfOk result (λ made. IfSome made (λ all. slots.items ≡ map Some all.items)) }
{
    let mut all = Vec::with_capacity(alloc, slots.len())?;
    for slot in slots {
        match slot {
            Some(text) => all.push(text)?,
            None => return Ok(None),
        }
    }
    Ok(Some(all))
}

/// The envelopes of all lines of texts, which are so many, taken in by threads. None where a line is refused, or a thread
/// found no memory.
fn gather_by_crew<R: Threads + Sync>(
    rt: &R,
    alloc: Global,
    form: Form,
    total: u32,
    texts: &[Vec<u8>],
) -> Result<Option<Batcher>, AddRefused>
    requires total { total ≡ length (all_lines (texts_of texts.now)) }
    requires most { total ≤ 262144 }
    ensures ok { IfOk result (λ answer. IfSome answer (HasAll form (texts_of texts.now))) }
    ensures err { IfErr result (λ refused. refused ≡ add.OutOfMemory) }
{
    let slots = text_batches(rt, alloc, form, texts)?;
    let Some(mut batches) = all_made(alloc, slots)? else {
        return Ok(None);
    };
    let mut batcher = Batcher::make(alloc, form, total)?;
    merge(&mut batcher, &mut batches)?;
    Ok(Some(batcher))
}

/// The batch of all lines of texts, as `batch_together` makes it. A thread takes in the lines of each text. Where a line is
/// refused, one thread goes over all again, since it is to be the first one.
pub(crate) fn batch_by_crew<R: Threads + Sync>(
    rt: &R,
    alloc: Global,
    form: Form,
    epoch: u32,
    m: u32,
    texts: &[Vec<u8>],
) -> Result<Batch, Stop>
    requires few { length texts.now ≤ 16 }
    requires small { length (concat (texts_of texts.now)) < 2 ^ 63 }
    ensures ok { IfOk result (λ batch. batched_together form epoch m (texts_of texts.now) ≡ Ok batch) }
    ensures err { IfErr result (StopsBatching (batched_together form epoch m (texts_of texts.now))) }
{
    let total = line_total(texts);
    if total > u64::from(MOST_RECORDS) {
        return batch_together(alloc, form, epoch, m, texts);
    }
    match gather_by_crew(rt, alloc, form, total as u32, texts)? {
        Some(batcher) => Ok(batcher.finish(epoch, m)?),
        None => batch_together(alloc, form, epoch, m, texts),
    }
}
