//! The two scans.

ghost use Rattle.std.specs.Prelude.{◌≡◌, ◌*◌, ◌≤◌, ◌⊎◌, ℕ, List, [], Some, OnOk, OnErr, length};
ghost use Rattle.std.specs.List.{concat};
ghost use Rattle.esa_crowds.specs.Entries.{entries};
ghost use Rattle.esa_crowds.specs.Kept.{sent_from};
ghost use Rattle.esa_hmac.specs.Mac.{StandsFor};
ghost use Rattle.esa_params.specs.Form.{inner_length};
ghost use Rattle.esa_params.specs.Sizes.{ArePlanned};
ghost use Rattle.esa_params.specs.Slots.{IsPlanned, block_length};
ghost use Rattle.esa_params.specs.declared.slot.Slot.{Slot};
ghost use Rattle.esa_spec.specs.Traces.{scan};
ghost use Rattle.esa_scans.specs.Forwarded.{HasForwarded};
ghost use Rattle.esa_scans.specs.Held.{is_marked};
ghost use Rattle.esa_scans.specs.Scans.{FailsAt, HasRead, items_from};

use crate::block::{gather_block, send_block};
use crate::sent::Sent;
use esa_crowds::Table;
use esa_device::{Device, Recorder};
use esa_envelope::Prepared;
use esa_hmac::Mac;
use esa_job::Drops;
use esa_params::Plan;
use esa_vault::VaultFault;

/// Reads all blocks of the output, and gathers the real records among their items.
pub(crate) fn gather<V: Device>(
    recorder: &mut Recorder<V>,
    plan: &Plan,
    keys: &Prepared,
    attempt: u32,
    codes: &Mac,
    sealed: &mut [u8],
    plain: &mut [u8],
    table: &mut Table,
) -> Result<(), VaultFault>
    requires ready { recorder.old.plan ≡ Some plan.now }
    requires room { plan.now.b ≤ recorder.old.room }
    requires sealed { (slot : Slot) → IsPlanned plan.now slot → block_length plan.now slot ≤ length sealed.old }
    requires plain { (slot : Slot) → IsPlanned plan.now slot → block_length plan.now slot ≤ length plain.old }
    requires form { table.old.form ≡ plan.now.form }
    requires records { table.old.room ≡ plan.now.n }
    ensures read { OnOk result ((given : List (List ℕ)) × (length given ≡ plan.now.b)
        × HasRead V.told V.faults plan.now keys.now attempt given recorder.old recorder.new
        × ((key : List ℕ) → StandsFor codes.now key [] → table.new.entries ≡ entries plan.now.form key (items_from plan.now keys.now attempt 0 given))) }
    ensures fault { OnErr result ((j : ℕ) × FailsAt V.told V.faults plan.now keys.now attempt [] j recorder.old recorder.new result) }
    ensures limits { ArePlanned plan.now }
    ensures form { table.new.form ≡ table.old.form }
    ensures records { table.new.room ≡ table.old.room }
{
    table.begin();
    for bucket in 0..plan.b() {
        if let Err(fault) = gather_block(
            recorder, plan, keys, attempt, bucket, codes, sealed, plain, table,
        ) {
            return Err(fault);
        }
    }
    Ok(())
}

/// Reads all blocks of the output, and sends their items that are kept.
pub(crate) fn forward<V: Device>(
    recorder: &mut Recorder<V>,
    plan: &Plan,
    keys: &Prepared,
    attempt: u32,
    table: &Table,
    sealed: &mut [u8],
    plain: &mut [u8],
    sent: &mut Sent,
) -> Result<(), VaultFault>
    requires ready { recorder.old.plan ≡ Some plan.now }
    requires room { plan.now.b ≤ recorder.old.room }
    requires sealed { (slot : Slot) → IsPlanned plan.now slot → block_length plan.now slot ≤ length sealed.old }
    requires plain { (slot : Slot) → IsPlanned plan.now slot → block_length plan.now slot ≤ length plain.old }
    requires form { table.now.form ≡ plan.now.form }
    requires records { table.now.room ≡ plan.now.n }
    requires whole { sent.old.room ≡ plan.now.n * inner_length plan.now.form }
    ensures read { OnOk result ((given : List (List ℕ)) × (length given ≡ plan.now.b)
        × HasRead V.told V.faults plan.now keys.now attempt given recorder.old recorder.new
        × (sent.new.bytes ≡ concat (sent_from plan.now.form (is_marked table.now.kept) 0 (items_from plan.now keys.now attempt 0 given)))) }
    ensures fault { OnErr result ((j : ℕ) × FailsAt V.told V.faults plan.now keys.now attempt [] j recorder.old recorder.new result) }
    ensures whole { sent.new.room ≡ sent.old.room }
{
    sent.clear();
    for bucket in 0..plan.b() {
        if let Err(fault) = send_block(
            recorder, plan, keys, attempt, bucket, table, sealed, plain, sent,
        ) {
            return Err(fault);
        }
    }
    Ok(())
}

/// Reads all blocks of the output twice. The first scan decides which positions are kept, and the second sends what
/// stands there.
pub(crate) fn both<V: Device>(
    recorder: &mut Recorder<V>,
    plan: &Plan,
    keys: &Prepared,
    attempt: u32,
    codes: &Mac,
    drops: &Drops,
    t: u32,
    sealed: &mut [u8],
    plain: &mut [u8],
    table: &mut Table,
    sent: &mut Sent,
) -> Result<(), VaultFault>
    requires ready { recorder.old.plan ≡ Some plan.now }
    requires room { 2 * plan.now.b ≤ recorder.old.room }
    requires sealed { (slot : Slot) → IsPlanned plan.now slot → block_length plan.now slot ≤ length sealed.old }
    requires plain { (slot : Slot) → IsPlanned plan.now slot → block_length plan.now slot ≤ length plain.old }
    requires form { table.old.form ≡ plan.now.form }
    requires records { table.old.room ≡ plan.now.n }
    requires whole { sent.old.room ≡ plan.now.n * inner_length plan.now.form }
    ensures forwarded { OnOk result ((key : List ℕ) → StandsFor codes.now key []
        → HasForwarded V.told V.faults plan.now keys.now attempt key drops.now t recorder.old recorder.new sent.new.bytes) }
    ensures fault { OnErr result ((j : ℕ) × (FailsAt V.told V.faults plan.now keys.now attempt [] j recorder.old recorder.new result
        ⊎ FailsAt V.told V.faults plan.now keys.now attempt (scan plan.now attempt) j recorder.old recorder.new result)) }
    ensures limits { ArePlanned plan.now }
    ensures form { table.new.form ≡ table.old.form }
    ensures records { table.new.room ≡ table.old.room }
    ensures whole { sent.new.room ≡ sent.old.room }
{
    if let Err(fault) = gather(recorder, plan, keys, attempt, codes, sealed, plain, table) {
        return Err(fault);
    }
    table.decide(codes, drops, t);
    if let Err(fault) = forward(recorder, plan, keys, attempt, table, sealed, plain, sent) {
        return Err(fault);
    }
    Ok(())
}
