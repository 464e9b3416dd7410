//! Merging the batches of several texts.

ghost use Rattle.std.specs.Prelude.{◌≡◌, ◌+◌, ◌++◌, ◌∷◌, ◌≤◌, ◌<◌, Some, [], nat_lt, All, IsNone, IfSome, OnOk, IfErr, length};
ghost use Rattle.std.specs.List.Sorted.{IsPermutation};
ghost use Rattle.std.specs.Ordering.{is_lt};
ghost use Rattle.esa_bytes.specs.Lines.{text_lines};
ghost use Rattle.esa_batcher.specs.Rising.{by_bytes};
ghost use Rattle.esa_batcher.specs.declared.refused.AddRefused.TheVariants as add;
ghost use Rattle.esa_gathering.specs.Merging.{next_of, all_left, HasNext, HasNextAt, IsOfText};

use esa_batcher::{AddRefused, Batch, Batcher, gather};
use esa_params::Form;
use std::alloc::Global;

/// The batch of one text, and how many of its envelopes are merged.
#[derive(Drop)]
pub(crate) struct TextBatch {
    batch: Batch,
    merged: u32,
}

/// The batch of a text, of which nothing is merged. None where a line is refused, or there is no memory.
pub(crate) fn text_batch(alloc: Global, form: Form, text: &[u8]) -> Option<TextBatch>
    ensures { IfSome result (IsOfText form (text_lines text.now)) }
{
    let Ok(batcher) = gather(alloc, form, text) else {
        return None;
    };
    let Ok(batch) = batcher.finish(0, 0) else {
        return None;
    };
    Some(TextBatch { batch, merged: 0 })
}

/// Whether an envelope isn't merged yet.
fn has_next(text: &TextBatch) -> bool
    ensures has { result ≡ nat_lt text.now.merged (length text.now.batch.list) }
    ensures few { length text.now.batch.list ≤ 262144 }
{
    text.merged < text.batch.count()
}

/// Whether the next envelope of one is below that of another.
fn is_below(text: &TextBatch, other: &TextBatch) -> bool
    requires text { HasNext text.now }
    requires other { HasNext other.now }
    ensures { result ≡ is_lt (by_bytes (next_of text.now) (next_of other.now)) }
{
    let next = text.batch.envelope(text.merged);
    next.cmp(other.batch.envelope(other.merged)).is_lt()
}

/// That one of two places whose next envelope is below the other's.
fn lower(texts: &[TextBatch], least: usize, place: usize) -> usize
    requires least { HasNextAt texts.now least }
    requires place { HasNextAt texts.now place }
    ensures { HasNextAt texts.now result }
{
    if is_below(&texts[place], &texts[least]) {
        place
    } else {
        least
    }
}

/// The place whose next envelope is the least, if there is one. To the batch it makes no difference which is taken, only to
/// the time that its sorting takes.
fn least_next(texts: &[TextBatch]) -> Option<usize>
    ensures some { IfSome result (HasNextAt texts.now) }
    ensures none { IsNone result → all_left texts.now ≡ [] }
{
    let mut least = None;
    for place in 0..texts.len() {
        if has_next(&texts[place]) {
            least = match least {
                Some(before) => Some(lower(texts, before, place)),
                None => Some(place),
            };
        }
    }
    least
}

/// Adds the next envelope of a batch.
fn put_next(batcher: &mut Batcher, text: &mut TextBatch) -> Result<(), AddRefused>
    requires form { text.old.batch.form ≡ batcher.old.form }
    requires next { HasNext text.old }
    requires room { length batcher.old.list < 262144 }
    ensures added { OnOk result (batcher.new.list ≡ batcher.old.list ++ next_of text.old ∷ []) }
    ensures form { batcher.new.form ≡ batcher.old.form }
    ensures merged { OnOk result (text.new ≡ record text.old { merged = text.old.merged + 1 }) }
    ensures refused { IfErr result (λ refused. refused ≡ add.OutOfMemory) }
{
    batcher.put(text.batch.envelope(text.merged))?;
    text.merged += 1;
    Ok(())
}

/// Adds all envelopes of batches that aren't merged yet, the least first.
pub(crate) fn merge(batcher: &mut Batcher, texts: &mut [TextBatch]) -> Result<(), AddRefused>
    requires forms { All (λ text. text.batch.form ≡ batcher.old.form) texts.old }
    requires room { length batcher.old.list + length (all_left texts.old) ≤ 262144 }
    ensures merged { OnOk result (IsPermutation (batcher.old.list ++ all_left texts.old) batcher.new.list) }
    ensures form { batcher.new.form ≡ batcher.old.form }
    ensures refused { IfErr result (λ refused. refused ≡ add.OutOfMemory) }
{
    while let Some(place) = least_next(texts) {
        put_next(batcher, &mut texts[place])?;
    }
    Ok(())
}
