//! Files that are in memory.

ghost use Rattle.std.specs.Prelude.{OnOk, OnErr};
ghost use Rattle.esa_outside.specs.Cause.{HasCause};
ghost use Rattle.esa_page.specs.Underway.{IsWhole, IsLeft};
ghost use Rattle.esa_page.specs.Writing.{HasWritten, HasBroken};

use esa_outside::{Cabinet, Failed};

/// Writes a file that is in memory. It starts anew.
pub fn write_bytes<K: Cabinet>(cabinet: &mut K, name: &str, bytes: &[u8]) -> Result<(), Failed>
    ensures whole { OnOk result (IsWhole (K.told cabinet.old) name.now bytes.now (K.told cabinet.new)) }

    // A failed call leaves the file as it was, or a front of the bytes.
    ensures left { OnErr result (IsLeft (K.told cabinet.old) name.now bytes.now (K.told cabinet.new)) }
    ensures heard { OnOk result (HasWritten (K.heard cabinet.old) name.now bytes.now (K.heard cabinet.new)) }
    ensures heard_broken { OnErr result (HasBroken (K.heard cabinet.old) name.now bytes.now (K.heard cabinet.new)) }
    ensures cause { HasCause (K.faults cabinet.old) (K.faults cabinet.new) ⊥ result }
{
    cabinet.start(name)?;
    cabinet.append(name, bytes)?;
    Ok(())
}
