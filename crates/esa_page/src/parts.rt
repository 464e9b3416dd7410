//! Writing a file of two parts that lie in memory.

ghost use Rattle.std.specs.Prelude.{◌≡◌, ◌++◌, ◌∷◌, [], ℕ, List, Option, OnOk, OnErr};
ghost use Rattle.esa_outside.specs.Cause.{HasCause};
ghost use Rattle.esa_outside.specs.Files.{Files};
ghost use Rattle.esa_outside.specs.Heard.{added, after};
ghost use Rattle.esa_page.specs.Underway.{IsUnderway, IsWhole, IsLeft};
ghost use Rattle.esa_page.specs.Writing.{HasWritten, HasBroken};

use esa_outside::{Cabinet, Failed};

/// Adds bytes to a file that is being written.
fn add_part<K: Cabinet>(cabinet: &mut K, name: &str, bytes: &[u8]) -> Result<(), Failed>
    ensures added { (before : Option Files) (text : List ℕ) → IsUnderway before name.now text [] (K.told cabinet.old)
        → OnOk result (IsUnderway before name.now (text ++ bytes.now) [] (K.told cabinet.new)) }
    ensures failed { (before : Option Files) (text : List ℕ) → IsUnderway before name.now text [] (K.told cabinet.old)
        → OnErr result (IsLeft before name.now (text ++ bytes.now) (K.told cabinet.new)) }
    ensures heard { K.heard cabinet.new ≡ after (K.heard cabinet.old) (λ _. added name.now bytes.now ∷ []) result }
    ensures cause { (before : Option Files) (text : List ℕ) → IsUnderway before name.now text [] (K.told cabinet.old)
        → HasCause (K.faults cabinet.old) (K.faults cabinet.new) ⊥ result }
{
    cabinet.append(name, bytes)
}

/// Writes a file that is a front and the rest behind it, both in memory. It starts anew, and takes no memory.
pub fn write_parts<K: Cabinet>(
    cabinet: &mut K,
    name: &str,
    front: &[u8],
    rest: &[u8],
) -> Result<(), Failed>
    ensures whole { OnOk result (IsWhole (K.told cabinet.old) name.now (front.now ++ rest.now) (K.told cabinet.new)) }
    ensures left { OnErr result (IsLeft (K.told cabinet.old) name.now (front.now ++ rest.now) (K.told cabinet.new)) }
    ensures heard { OnOk result (HasWritten (K.heard cabinet.old) name.now (front.now ++ rest.now) (K.heard cabinet.new)) }
    ensures heard_broken { OnErr result (HasBroken (K.heard cabinet.old) name.now (front.now ++ rest.now) (K.heard cabinet.new)) }
    ensures cause { HasCause (K.faults cabinet.old) (K.faults cabinet.new) ⊥ result }
{
    cabinet.start(name)?;
    add_part(cabinet, name, front)?;
    add_part(cabinet, name, rest)
}
