//! The load of all buckets.

ghost use Rattle.std.specs.Prelude.{◌≡◌, ℕ, List, ◌*◌, ◌+◌, ◌≤◌, Some, IfOk, length};
ghost use Rattle.esa_params.specs.Form.{envelope_length};
ghost use Rattle.esa_params.specs.Sizes.{size};
ghost use Rattle.esa_load.specs.Loads.{LoadEnd};

use crate::bucket::load_bucket;
use crate::fault::LoadFault;
use esa_device::{Device, Recorder};
use esa_envelope::{Keys, Prepared, prepare};
use esa_outside::Records;
use esa_params::Plan;
use std::alloc::{AllocError, Global};
use std::marker::Model;

/// Loads the buckets, one after another. `text` and `sealed` are room for each.
#[tactic(auto, using(crate::proofs::Fitting::bucket_fits))]
fn load_all<V: Device, R: Records>(
    recorder: &mut Recorder<V>,
    plan: &Plan,
    run: &Prepared,
    batch: &mut R,
    text: &mut [u8],
    sealed: &mut [u8],
) -> Result<(), LoadFault>
    requires ready { recorder.old.plan ≡ Some plan.now }
    requires room { plan.now.b ≤ recorder.old.room }
    requires count { R.count batch.old ≡ plan.now.n }
    requires size { R.size batch.old ≡ envelope_length plan.now.form }
    requires text { length text.old ≡ envelope_length plan.now.form * size plan.now 0 }
    requires sealed { length sealed.old ≡ envelope_length plan.now.form * size plan.now 0 + 40 }
    ensures end { (given : List ℕ) × LoadEnd V.faults plan.now run.now (R.told batch.old) (R.part (R.grounds batch.old)) given recorder.old recorder.new
        (record { faults = R.faults batch.old; heard = R.heard batch.old }) (record { faults = R.faults batch.new; heard = R.heard batch.new }) result }
    ensures told { R.told batch.new ≡ R.told batch.old }
    ensures grounds { R.grounds batch.new ≡ R.grounds batch.old }
    ensures count { R.count batch.new ≡ R.count batch.old }
    ensures size { R.size batch.new ≡ R.size batch.old }
{
    for bucket in 0..plan.b() {
        let length = (plan.form().envelope() * plan.size(bucket)) as usize;
        let (text, sealed) = (&mut text[..length], &mut sealed[..length + 40]);
        if let Err(fault) = load_bucket(recorder, plan, run, batch, bucket, text, sealed) {
            return Err(fault);
        }
    }
    Ok(())
}

/// Room for a load: for the records of a bucket and their block, whichever bucket it is. Only `make` takes memory.
#[derive(Drop)]
pub struct Loader {
    plan: Plan,
    run: Prepared,
    text: Vec<u8>,
    sealed: Vec<u8>,
}

impl Model for Loader {
    ghost use Rattle.esa_load.specs.Loads.{FitsEachBucket, Loading};

    ghost Value = { Loading };

    ghost view = { λ l. record { plan = l.plan; run = l.run } };

    ghost invariant = { λ l. FitsEachBucket l.plan l.text.items l.sealed.items };
}

impl Loader {
    /// A loader for a plan and the keys of the blocks.
    pub fn make(alloc: Global, plan: Plan, run: Keys) -> Result<Loader, AllocError>
        ensures { IfOk result (λ l. l ≡ record { plan = plan; run = run }) }
    {
        let length = (plan.form().envelope() * plan.size(0)) as usize;
        Ok(Loader {
            plan,
            run: prepare(&run),
            text: vec![in alloc; 0; length]?,
            sealed: vec![in alloc; 0; length + 40]?,
        })
    }

    /// Loads a batch: each bucket of it is read, sealed and written once, also an empty one. What is written is what the
    /// batch gave in this call. The load ends where a bucket can't be read, which is where the batch's count of faults
    /// rose, or where its block can't be written, which is where the device's did.
    pub fn load<V: Device, R: Records>(
        &mut self,
        recorder: &mut Recorder<V>,
        batch: &mut R,
    ) -> Result<(), LoadFault>
        requires ready { recorder.old.plan ≡ Some self.old.plan }
        requires room { self.old.plan.b ≤ recorder.old.room }
        requires count { R.count batch.old ≡ self.old.plan.n }
        requires size { R.size batch.old ≡ envelope_length self.old.plan.form }
        ensures end { (given : List ℕ) × LoadEnd V.faults self.old.plan self.old.run (R.told batch.old) (R.part (R.grounds batch.old)) given recorder.old recorder.new
            (record { faults = R.faults batch.old; heard = R.heard batch.old }) (record { faults = R.faults batch.new; heard = R.heard batch.new }) result }
        ensures told { R.told batch.new ≡ R.told batch.old }
        ensures grounds { R.grounds batch.new ≡ R.grounds batch.old }
        ensures count { R.count batch.new ≡ R.count batch.old }
        ensures size { R.size batch.new ≡ R.size batch.old }
        ensures kept { self.new ≡ self.old }
    {
        load_all(
            recorder,
            &self.plan,
            &self.run,
            batch,
            &mut self.text,
            &mut self.sealed,
        )
    }
}
