//! A batch whose records are known by their numbers.

ghost use Rattle.std.specs.Prelude.{◌≡◌, ◌*◌, [], None, IfOk, length};
ghost use Rattle.esa_params.specs.Form.{envelope_length};

use esa_envelope::{Keys, Label, Prepared, prepare, seal_with};
use esa_outside::{Failed, Records};
use esa_params::Plan;
use std::alloc::{AllocError, Global};
use std::marker::Model;

/// Outer envelopes, one after another. The text of each is the number of its place, byte after byte. One read of
/// them may fail.
#[derive(Drop)]
pub struct Numbered {
    count: u32,
    size: u32,
    bytes: Vec<u8>,
    fails: Option<u64>,
    reads: u64,
    faults: u64,
}

impl Model for Numbered {
    ghost use Rattle.std.specs.Prelude.{◌≡◌, ◌*◌, length};
    ghost use Rattle.esa_attempts.specs.Batch.{Many};

    ghost Value = { Many };

    ghost view = { λ b. record { count = b.count; size = b.size; faults = b.faults } };

    ghost invariant = { λ b. length b.bytes.items ≡ b.count * b.size };
}

impl Numbered {
    /// As many envelopes as a plan has records. The read of this number fails, counted from 1 on.
    pub fn make(
        alloc: Global,
        plan: &Plan,
        outer: &Keys,
        fails: Option<u64>,
    ) -> Result<Numbered, AllocError>
        ensures { IfOk result (λ b. b ≡ record { count = plan.now.n; size = envelope_length plan.now.form; faults = 0 }) }
    {
        let (count, size) = (plan.n(), plan.form().envelope());
        let mut bytes = vec![in alloc; 0; count as usize * size as usize]?;
        let plain = vec![in alloc; 0; size as usize - 40]?;
        seal_all(&prepare(outer), plain, &mut bytes);
        Ok(Numbered {
            count,
            size,
            bytes,
            fails,
            reads: 0,
            faults: 0,
        })
    }
}

/// Seals an envelope at each place.
fn seal_all(outer: &Prepared, mut plain: Vec<u8>, bytes: &mut [u8]) {
    for (place, envelope) in bytes
        .chunks_exact_mut(plain.len().saturating_add(40))
        .enumerate()
    {
        plain.fill((place % 256) as u8);
        if envelope.len() == plain.len() + 40 {
            seal_with(outer, Label::Outer, place as u64, &plain, envelope);
        }
    }
}

impl Records for Numbered {
    type Ground = ();

    ghost told = { λ _. None };

    ghost grounds = { λ _. tt };

    ghost count = { λ b. b.count };

    ghost size = { λ b. b.size };

    ghost faults = { λ b. b.faults };

    ghost heard = { λ _. [] };

    ghost part = { λ ground first bytes. [] };

    fn faults(&self) -> u64 {
        self.faults
    }

    fn count(&self) -> u32 {
        self.count
    }

    fn size(&self) -> u32 {
        self.size
    }

    fn told_as_counted(&self) {}

    fn records(&mut self, first: u32, out: &mut [u8]) -> Result<(), Failed> {
        self.reads = self.reads.saturating_add(1);
        if self.fails == Some(self.reads) && !out.is_empty() {
            self.faults = self.faults.saturating_add(1);
            return Err(Failed);
        }
        let at = first as usize * self.size as usize;
        out.copy_from_slice(&self.bytes[at..at + out.len()]);
        Ok(())
    }
}
