//! A file that is read piece by piece into a buffer, which keeps some of it.

ghost use Rattle.std.specs.Prelude.{◌≡◌, ◌+◌, ◌-◌, ◌≤◌, length, take, slice_range};
ghost use Rattle.esa_outside.specs.Cause.{HasCause};
ghost use Rattle.esa_outside.specs.Told.{Lacks};
ghost use Rattle.esa_batcher.specs.Paging.{PieceHeard};

use esa_outside::{Cabinet, Failed};

/// Fills a part of the buffer with the bytes of a file from the place `at` on.
pub(crate) fn read_piece<K: Cabinet>(
    cabinet: &mut K,
    name: &str,
    at: u64,
    buffer: &mut [u8],
    from: usize,
    to: usize,
) -> Result<(), Failed>
    requires ordered { from ≤ to }
    requires room { to ≤ length buffer.old }
    ensures piece { PieceHeard name.now (K.told cabinet.old) at (K.heard cabinet.old) (K.heard cabinet.new) (slice_range buffer.new from to) result }
    ensures front { take from buffer.new ≡ take from buffer.old }
    ensures length { length buffer.new ≡ length buffer.old }
    ensures told { K.told cabinet.new ≡ K.told cabinet.old }
    ensures cause { HasCause (K.faults cabinet.old) (K.faults cabinet.new) (Lacks (K.told cabinet.old) name.now (at + (to - from))) result }
{
    cabinet.read_at(name, at, &mut buffer[from..to])?;
    Ok(())
}

/// Moves a part of the buffer to its front.
pub(crate) fn keep(buffer: &mut [u8], from: usize, to: usize)
    requires ordered { from ≤ to }
    requires room { to ≤ length buffer.old }
    ensures kept { take (to - from) buffer.new ≡ slice_range buffer.old from to }
    ensures length { length buffer.new ≡ length buffer.old }
{
    buffer.copy_within(from..to, 0);
}
