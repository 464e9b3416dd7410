//! Writing a forward file.

ghost use Rattle.std.specs.Prelude.{◌++◌, OnOk, OnErr};
ghost use Rattle.esa_outside.specs.Cause.{HasCause};
ghost use Rattle.esa_page.specs.Underway.{IsWhole, IsLeft};
ghost use Rattle.esa_page.specs.Writing.{HasWritten, HasBroken};
ghost use Rattle.esa_threshold.specs.Forward.{forward_front};

use crate::forward::forward_header;
use esa_outside::{Cabinet, Failed};
use esa_page::write_parts;
use esa_params::Form;

/// Writes a file of so many inner envelopes, which are joined. It starts anew, and takes no memory. In form One the epoch
/// isn't used.
pub fn write_forward<K: Cabinet>(
    form: Form,
    epoch: u32,
    count: u32,
    envelopes: &[u8],
    cabinet: &mut K,
    name: &str,
) -> Result<(), Failed>
    ensures whole { OnOk result (IsWhole (K.told cabinet.old) name.now (forward_front form epoch count ++ envelopes.now) (K.told cabinet.new)) }

    // A failed call leaves the file as it was, or a front of the whole file.
    ensures left { OnErr result (IsLeft (K.told cabinet.old) name.now (forward_front form epoch count ++ envelopes.now) (K.told cabinet.new)) }
    ensures heard { OnOk result (HasWritten (K.heard cabinet.old) name.now (forward_front form epoch count ++ envelopes.now) (K.heard cabinet.new)) }
    ensures heard_broken { OnErr result (HasBroken (K.heard cabinet.old) name.now (forward_front form epoch count ++ envelopes.now) (K.heard cabinet.new)) }
    ensures cause { HasCause (K.faults cabinet.old) (K.faults cabinet.new) ⊥ result }
{
    let mut front = [0; 15];
    let length = forward_header(form, epoch, count, &mut front);
    write_parts(cabinet, name, &front[..length], envelopes)
}
