//! A floor as the value of a turnstile.

ghost use Rattle.esa_floor.specs.Marks.{mark_of, roots_of};
ghost use Rattle.esa_floor.specs.Trails.{IsKept, trail_of};

use crate::floor::{Floor, Roots};
use crate::told::Told;
use esa_device::Device;
use esa_turnstile::Logged;

/// Its entries are those of its history. It is sound where it stands for them, its queues and slots hold the records of the
/// input, and each write took its block. Its trail is the log of its recorder.
impl<V: Device, G: Told> Logged for Floor<V, G> {
    type Origin = Roots;

    ghost log = { λ f. f.history };

    ghost origin = { λ f. roots_of f };

    ghost IsSound = { λ f. IsKept V.faults G.plan G.draws f };

    ghost mark = { λ f. mark_of f };

    ghost trail = { λ f. trail_of f };

    fn entries(&self) -> &[u32] {
        self.history()
    }
}
