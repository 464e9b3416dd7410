//! The submission lines of a text.

ghost use Rattle.std.specs.Prelude.{◌≡◌, ◌⊎◌, ◌+◌, ◌≤◌, Ok, Err, IfOk, IfErr, OnOk, MatchResult, length};
ghost use Rattle.esa_bytes.specs.Lines.{text_lines};
ghost use Rattle.esa_batcher.specs.declared.refused.AddRefused.TheVariants as add;
ghost use Rattle.esa_batcher.specs.Finishing.{envelopes_of};
ghost use Rattle.esa_batcher.specs.Submitted.{joined_to, lines_in, submitted};

use crate::batcher::Batcher;
use crate::refused::AddRefused;
use esa_bytes::{line_count, split_line};
use esa_params::{Form, MOST_RECORDS};
use std::alloc::{AllocError, Global};

impl From<AllocError> for AddRefused {
    ghost from_gives = { λ _ refused. refused ≡ add.OutOfMemory };

    fn from(_: AllocError) -> Self {
        AddRefused::OutOfMemory
    }
}

/// Adds the envelopes of all lines of a text.
fn add_lines(batcher: &mut Batcher, submissions: &[u8]) -> Result<(), AddRefused>
    requires { length batcher.old.list + length (text_lines submissions.now) ≤ 262144 }
    ensures added { OnOk result (joined_to batcher.old.list (lines_in batcher.old.form 1 (text_lines submissions.now)) ≡ Ok batcher.new.list) }
    ensures form { batcher.new.form ≡ batcher.old.form }
    ensures refused { IfErr result (λ refused. (refused ≡ add.OutOfMemory) ⊎ (lines_in batcher.old.form 1 (text_lines submissions.now) ≡ Err refused)) }
{
    let mut rest = submissions;
    let mut number = 0;
    while let Some((line, behind)) = split_line(rest) {
        number += 1;
        batcher.add(line, number)?;
        rest = behind;
    }
    Ok(())
}

/// Gathers the envelopes of all submission lines of a text. More lines than a batch has records are refused before
/// any is looked at, and else the first bad line, with its first cause.
pub fn gather(alloc: Global, form: Form, submissions: &[u8]) -> Result<Batcher, AddRefused>
    ensures gathered { MatchResult result (λ batcher. submitted form submissions.now ≡ Ok batcher.list)
        (λ refused. (refused ≡ add.OutOfMemory) ⊎ (submitted form submissions.now ≡ Err refused)) }
    ensures form { IfOk result (λ batcher. batcher.form ≡ form) }

    // Of each line nothing but its envelope is kept.
    ensures envelopes { IfOk result (λ batcher. batcher.list ≡ envelopes_of form (text_lines submissions.now)) }
{
    let count = line_count(submissions);
    if count > u64::from(MOST_RECORDS) {
        return Err(AddRefused::TooMany { n: count });
    }
    let mut batcher = Batcher::make(alloc, form, count as u32)?;
    add_lines(&mut batcher, submissions)?;
    Ok(batcher)
}
