//! Writing a trace.

ghost use Rattle.std.specs.Prelude.{◌<◌, ◌^◌, ◌++◌, List, ℕ, Option, All, length, flat_map, OnOk, OnErr};
ghost use Rattle.esa_outside.specs.Files.{Files};
ghost use Rattle.esa_outside.specs.Cause.{HasCause};
ghost use Rattle.esa_outside.specs.Heard.{Event};
ghost use Rattle.esa_page.specs.Underway.{IsUnderway, IsWhole, IsLeft};
ghost use Rattle.esa_page.specs.Writing.{IsWriting, HasWritten, HasBroken};
ghost use Rattle.esa_spec.specs.Files.{access_bytes, trace_bytes};

use crate::bytes::{header, spell};
use esa_outside::{Cabinet, Failed};
use esa_page::Page;
use esa_params::Access;

/// Puts the accesses behind the bytes that wait in the page.
fn put_accesses<K: Cabinet>(
    accesses: &[Access],
    page: &mut Page,
    cabinet: &mut K,
    name: &str,
) -> Result<(), Failed>
    requires { All (λ access. access.attempt < 256) accesses.now }
    ensures added { (before : Option Files) (text : List ℕ)
        → IsUnderway before name.now text page.old (K.told cabinet.old)
        → OnOk result (IsUnderway before name.now (text ++ flat_map access_bytes accesses.now) page.new (K.told cabinet.new)) }
    ensures failed { (before : Option Files) (text : List ℕ)
        → IsUnderway before name.now text page.old (K.told cabinet.old)
        → OnErr result (IsLeft before name.now (text ++ flat_map access_bytes accesses.now) (K.told cabinet.new)) }
    ensures heard { (before : List Event) (text : List ℕ)
        → IsWriting before name.now text page.old (K.heard cabinet.old)
        → OnOk result (IsWriting before name.now (text ++ flat_map access_bytes accesses.now) page.new (K.heard cabinet.new)) }
    ensures heard_broken { (before : List Event) (text : List ℕ)
        → IsWriting before name.now text page.old (K.heard cabinet.old)
        → OnErr result (HasBroken before name.now (text ++ flat_map access_bytes accesses.now) (K.heard cabinet.new)) }
    ensures cause { (before : Option Files) (text : List ℕ)
        → IsUnderway before name.now text page.old (K.told cabinet.old)
        → HasCause (K.faults cabinet.old) (K.faults cabinet.new) ⊥ result }
{
    for access in accesses {
        page.put(cabinet, name, &spell(access))?;
    }
    Ok(())
}

/// Writes a trace as a file, which starts anew. It takes no memory.
///
/// The header is `ESAT`, the version 1, and the number of accesses in four bytes. An access is its operation (0 a
/// read, 1 a write), its region (0 `Input`, 1 `Mid`, 2 `Tail`, 3 `Output`) and its attempt in one byte each, its index
/// and its length in four bytes each, and its nonce in eight. All numbers are big-endian.
pub fn write_trace<K: Cabinet>(
    accesses: &[Access],
    cabinet: &mut K,
    name: &str,
) -> Result<(), Failed>
    requires attempts { All (λ access. access.attempt < 256) accesses.now }
    requires number { length accesses.now < 2 ^ 32 }
    ensures whole { OnOk result (IsWhole (K.told cabinet.old) name.now (trace_bytes accesses.now) (K.told cabinet.new)) }

    // A failed call leaves the file as it was, or a front of the whole file.
    ensures left { OnErr result (IsLeft (K.told cabinet.old) name.now (trace_bytes accesses.now) (K.told cabinet.new)) }
    ensures heard { OnOk result (HasWritten (K.heard cabinet.old) name.now (trace_bytes accesses.now) (K.heard cabinet.new)) }
    ensures heard_broken { OnErr result (HasBroken (K.heard cabinet.old) name.now (trace_bytes accesses.now) (K.heard cabinet.new)) }
    ensures cause { HasCause (K.faults cabinet.old) (K.faults cabinet.new) ⊥ result }
{
    let mut page = Page::start(cabinet, name)?;
    page.put(cabinet, name, &header(accesses.len() as u32))?;
    put_accesses(accesses, &mut page, cabinet, name)?;
    page.finish(cabinet, name)
}
