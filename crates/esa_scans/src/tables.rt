//! The tables of a threshold, and its two scans.

ghost use Rattle.std.specs.Prelude.{◌≡◌, ◌*◌, ◌≤◌, ◌⊎◌, ◌≢◌, ℕ, List, [], Some, Err, IfOk, OnOk, OnErr};
ghost use Rattle.std.specs.List.{concat, flat_map};
ghost use Rattle.esa_crowds.specs.Kept.{forward as forwards};
ghost use Rattle.esa_device.specs.Logs.{IsFaithful};
ghost use Rattle.esa_hmac.specs.Mac.{StandsFor};
ghost use Rattle.esa_params.specs.Sizes.{ArePlanned, below};
ghost use Rattle.esa_report.specs.declared.item.Item.{Item};
ghost use Rattle.esa_spec.specs.Traces.{scan};
ghost use Rattle.esa_vault.specs.declared.fault.VaultFault.TheVariants.{Tampered};
ghost use Rattle.esa_scans.specs.Forwarded.{HasForwarded};
ghost use Rattle.esa_scans.specs.Scans.{FailsAt};
ghost use Rattle.esa_scans.specs.Sealed.{AreHeld, AreSealed};

use crate::scan::both;
use crate::sent::Sent;
use esa_crowds::Table;
use esa_device::{Device, Recorder};
use esa_envelope::{Keys, Prepared, prepare};
use esa_hmac::Mac;
use esa_job::Drops;
use esa_params::Plan;
use esa_vault::VaultFault;
use std::alloc::{AllocError, Global};
use std::marker::Model;

/// All memory of the two scans of a plan's output, and what they forward. It is seen as the plan, and the inner
/// envelopes that are forwarded, joined.
#[derive(Drop)]
pub struct Tables {
    plan: Plan,
    table: Table,
    sealed: Vec<u8>,
    plain: Vec<u8>,
    sent: Sent,
}

impl Model for Tables {
    ghost use Rattle.esa_scans.specs.Forwarded.{Tabled};
    ghost use Rattle.esa_scans.specs.Inside.{AreTables};

    ghost Value = { Tabled };

    ghost view = { λ s. record { plan = s.plan; forward = s.sent.bytes } };

    ghost invariant = { λ s. AreTables s.plan s.table s.sealed.items s.plain.items s.sent };
}

impl Tables {
    /// Tables for a plan. Nothing is forwarded.
    pub fn make(alloc: Global, plan: Plan) -> Result<Tables, AllocError>
        ensures { IfOk result (λ tables. tables ≡ record { plan = plan; forward = [] }) }
    {
        let n = plan.n();
        let form = plan.form();
        let block = plan.greatest_block() as usize;
        Ok(Tables {
            plan,
            table: Table::make(alloc, form, n)?,
            sealed: vec![in alloc; 0; block]?,
            plain: vec![in alloc; 0; block]?,
            sent: Sent::make(alloc, n as usize * form.inner() as usize)?,
        })
    }

    /// The inner envelopes that are forwarded, in the order of their positions, joined.
    pub fn forward(&self) -> &[u8]
        ensures { result.now ≡ self.now.forward }
    {
        self.sent.all()
    }

    /// Forgets what is forwarded.
    fn forget(&mut self)
        ensures { self.new ≡ record self.old { forward = [] } }
    {
        self.sent.clear();
    }

    /// Makes both scans of the output of an attempt.
    fn scan<V: Device>(
        &mut self,
        recorder: &mut Recorder<V>,
        keys: &Prepared,
        attempt: u32,
        codes: &Mac,
        drops: &Drops,
        t: u32,
    ) -> Result<(), VaultFault>
        requires ready { recorder.old.plan ≡ Some self.old.plan }
        requires room { 2 * self.old.plan.b ≤ recorder.old.room }
        ensures forwarded { OnOk result ((key : List ℕ) → StandsFor codes.now key []
            → HasForwarded V.told V.faults self.old.plan keys.now attempt key drops.now t recorder.old recorder.new self.new.forward) }
        ensures fault { OnErr result ((j : ℕ) × (FailsAt V.told V.faults self.old.plan keys.now attempt [] j recorder.old recorder.new result
            ⊎ FailsAt V.told V.faults self.old.plan keys.now attempt (scan self.old.plan attempt) j recorder.old recorder.new result)) }
        ensures limits { ArePlanned self.old.plan }
        ensures plan { self.new.plan ≡ self.old.plan }
    {
        both(
            recorder,
            &self.plan,
            keys,
            attempt,
            codes,
            drops,
            t,
            &mut self.sealed,
            &mut self.plain,
            &mut self.table,
            &mut self.sent,
        )
    }
}

/// Reads all blocks of the output of an attempt twice, in order. The first scan gathers the real records of the items,
/// and the second forwards the inner envelopes at the positions that are kept. A dummy and a malformed item are passed
/// over. A scan ends early only where the device failed or gave bytes that don't open, and then nothing is forwarded.
pub fn threshold<V: Device>(
    recorder: &mut Recorder<V>,
    plan: &Plan,
    run: &Keys,
    attempt: u32,
    dropkey: &[u8; 32],
    drops: &Drops,
    t: u32,
    tables: &mut Tables,
) -> Result<(), VaultFault>
    requires tables { tables.old.plan ≡ plan.now }
    requires ready { recorder.old.plan ≡ Some plan.now }
    requires room { 2 * plan.now.b ≤ recorder.old.room }
    ensures forwarded { OnOk result (HasForwarded V.told V.faults plan.now run.now attempt dropkey.now drops.now t recorder.old recorder.new tables.new.forward) }

    // Where the log is faithful and the blocks of the output were sealed with records last, these are forwarded.
    ensures latest { (records : ℕ → List Item) → IsFaithful plan.now recorder.new.log → AreSealed plan.now run.now attempt records recorder.old.log
        → OnOk result (tables.new.forward ≡ concat (forwards plan.now.form dropkey.now drops.now t (flat_map records (below plan.now.b)))) }

    // It ends with a read of the first scan, or with one of the second.
    ensures fault { OnErr result ((j : ℕ) × (FailsAt V.told V.faults plan.now run.now attempt [] j recorder.old recorder.new result
        ⊎ FailsAt V.told V.faults plan.now run.now attempt (scan plan.now attempt) j recorder.old recorder.new result)) }

    // Where the log is faithful and they were sealed with records last, none of them a dummy, each block opens.
    ensures opens { (records : ℕ → List Item) (slot : ℕ) → IsFaithful plan.now recorder.new.log → AreSealed plan.now run.now attempt records recorder.old.log
        → AreHeld plan.now records → result ≢ Err (Tampered slot) }
    ensures nothing { OnErr result (tables.new.forward ≡ []) }
    ensures plan { tables.new.plan ≡ tables.old.plan }
{
    let codes = Mac::start(dropkey);
    if let Err(fault) = tables.scan(recorder, &prepare(run), attempt, &codes, drops, t) {
        tables.forget();
        return Err(fault);
    }
    Ok(())
}
