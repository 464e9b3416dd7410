//! The turns of a run as a file.

ghost use Rattle.std.specs.Prelude.{◌≡◌, ◌++◌, List, ℕ, Option, flat_map, OnOk, OnErr};
ghost use Rattle.esa_lists.specs.Files.{Files};
ghost use Rattle.esa_outside.specs.Cause.{HasCause};
ghost use Rattle.esa_outside.specs.Heard.{Event};
ghost use Rattle.esa_page.specs.Underway.{IsUnderway, IsWhole, IsLeft};
ghost use Rattle.esa_page.specs.Writing.{IsWriting, HasWritten, HasBroken};
ghost use Rattle.esa_spec.specs.Files.{turns_bytes};
ghost use Rattle.esa_spec.specs.Histories.{lists};
ghost use Rattle.esa_taking.specs.StoredTurns.{entry_line, inner, IsHistory};

use esa_outside::{Cabinet, Failed};
use esa_page::Page;
use esa_refusal::Line;

/// The line of an entry of a history: the worker's number, or `next` for the entry of the owner between two attempts.
fn line_of_entry(entry: u32, owner: u32) -> Line
    ensures { result ≡ entry_line owner entry }
{
    let mut line = Line::new();
    if entry == owner {
        line.word("next\n");
    } else {
        line.number(u64::from(entry));
        line.word("\n");
    }
    line
}

/// Puts the lines of entries behind the bytes that wait in the page.
fn put_entries<K: Cabinet>(
    entries: &[u32],
    owner: u32,
    page: &mut Page,
    cabinet: &mut K,
    name: &str,
) -> Result<(), Failed>
    ensures added { (before : Option Files) (text : List ℕ)
        → IsUnderway before name.now text page.old (K.told cabinet.old)
        → OnOk result (IsUnderway before name.now (text ++ flat_map (entry_line owner) entries.now) page.new (K.told cabinet.new)) }
    ensures failed { (before : Option Files) (text : List ℕ)
        → IsUnderway before name.now text page.old (K.told cabinet.old)
        → OnErr result (IsLeft before name.now (text ++ flat_map (entry_line owner) entries.now) (K.told cabinet.new)) }
    ensures heard { (before : List Event) (text : List ℕ)
        → IsWriting before name.now text page.old (K.heard cabinet.old)
        → OnOk result (IsWriting before name.now (text ++ flat_map (entry_line owner) entries.now) page.new (K.heard cabinet.new)) }
    ensures heard_broken { (before : List Event) (text : List ℕ)
        → IsWriting before name.now text page.old (K.heard cabinet.old)
        → OnErr result (HasBroken before name.now (text ++ flat_map (entry_line owner) entries.now) (K.heard cabinet.new)) }
    ensures cause { (before : Option Files) (text : List ℕ)
        → IsUnderway before name.now text page.old (K.told cabinet.old)
        → HasCause (K.faults cabinet.old) (K.faults cabinet.new) ⊥ result }
{
    for entry in entries {
        page.put(cabinet, name, line_of_entry(*entry, owner).as_bytes())?;
    }
    Ok(())
}

/// The entries of a history but its first and its last one, which are the owner's.
fn inner_entries(history: &[u32]) -> &[u32]
    ensures { result.now ≡ inner history.now }
{
    if history.len() < 2 {
        &history[..0]
    } else {
        &history[1..history.len() - 1]
    }
}

/// Writes the turns of a history as a file, which starts anew. It takes no memory.
///
/// A history has the owner's entry, which is the number of workers, and then the turns of each attempt with the owner's
/// entry behind them. The file has a line for each turn, and the line `next` between two attempts.
pub fn write_turns<K: Cabinet>(
    history: &[u32],
    owner: u32,
    cabinet: &mut K,
    name: &str,
) -> Result<(), Failed>
    requires { IsHistory owner history.now }
    ensures whole { OnOk result (IsWhole (K.told cabinet.old) name.now (turns_bytes (lists owner history.now)) (K.told cabinet.new)) }

    // A failed call leaves the file as it was, or a front of the whole file.
    ensures left { OnErr result (IsLeft (K.told cabinet.old) name.now (turns_bytes (lists owner history.now)) (K.told cabinet.new)) }
    ensures heard { OnOk result (HasWritten (K.heard cabinet.old) name.now (turns_bytes (lists owner history.now)) (K.heard cabinet.new)) }
    ensures heard_broken { OnErr result (HasBroken (K.heard cabinet.old) name.now (turns_bytes (lists owner history.now)) (K.heard cabinet.new)) }
    ensures cause { HasCause (K.faults cabinet.old) (K.faults cabinet.new) ⊥ result }
{
    let mut page = Page::start(cabinet, name)?;
    put_entries(inner_entries(history), owner, &mut page, cabinet, name)?;
    page.finish(cabinet, name)
}
