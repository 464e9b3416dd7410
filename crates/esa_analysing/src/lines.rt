//! The line that tells what a database holds.

ghost use Rattle.std.specs.Prelude.{◌≡◌, ◌++◌, codes};
ghost use Rattle.esa_refusal.specs.Refusal.{numbered};

use esa_refusal::{Line, add_numbered};

/// The line that tells how many rows a database has, and how many envelopes gave no value.
pub(crate) fn counted_line(rows: u32, unopened: u32) -> Line
    ensures { result ≡ numbered (codes "rows ") rows ++ numbered (codes " unopened ") unopened }
{
    let mut line = Line::new();
    add_numbered(&mut line, "rows ", u64::from(rows));
    add_numbered(&mut line, " unopened ", u64::from(unopened));
    line
}
