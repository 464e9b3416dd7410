//! Sealing a block for its slot, and opening it.

ghost use Rattle.std.specs.Prelude.{◌≡◌, length, unwrap_or};
ghost use Rattle.esa_params.specs.Slots.{IsPlanned, block_length, nonce_of, plain_length};
ghost use Rattle.esa_params.specs.Sizes.{ArePlanned};
ghost use Rattle.esa_envelope.specs.Envelope.{nonce_in};
ghost use Rattle.esa_vault.specs.Seals.{opens, sealed_block, text_in};

use crate::filled::is_filled;
use crate::text::item_length;
use esa_envelope::{Label, Prepared, nonce_of, seal_with, unseal_with};
use esa_params::{Plan, Region, Slot};

/// Seals the text of a block for its slot in an attempt, under the run keys. The text of a block of `Input` is
/// its envelopes, and that of any other block is its items, one after another.
pub fn seal_block(
    plan: &Plan,
    keys: &Prepared,
    slot: Slot,
    attempt: u32,
    plain: &[u8],
    out: &mut [u8],
)
    requires planned { IsPlanned plan.now slot }
    requires plain { length plain.now ≡ plain_length plan.now slot.region slot.index }
    requires out { length out.old ≡ block_length plan.now slot }
    ensures sealed { out.new ≡ sealed_block plan.now keys.now slot attempt plain.now }
    ensures nonce { nonce_in out.new ≡ nonce_of plan.now attempt slot }
{
    let nonce = plan.nonce(attempt, slot);
    seal_with(keys, Label::Block, nonce, plain, out);
}

/// Opens bytes for a slot, an attempt and a count, and answers whether they open. `plain` has the opened text
/// where nonce and tag agree, and is otherwise as it was.
#[tactic(auto, unfolding(crate::specs::Seals::text_in))]
pub(crate) fn open_block(
    plan: &Plan,
    keys: &Prepared,
    slot: Slot,
    attempt: u32,
    count: u32,
    sealed: &[u8],
    plain: &mut [u8],
) -> bool
    requires planned { IsPlanned plan.now slot }
    requires sealed { length sealed.now ≡ block_length plan.now slot }
    requires plain { length plain.old ≡ plain_length plan.now slot.region slot.index }
    ensures opens { result ≡ opens plan.now keys.now slot attempt count sealed.now }
    ensures limits { ArePlanned plan.now }
    ensures plain { plain.new ≡ unwrap_or (text_in plan.now keys.now slot attempt sealed.now) plain.old }
{
    let item = item_length(plan.form());
    let nonce = plan.nonce(attempt, slot);
    if nonce_of(sealed) != nonce {
        return false;
    }
    if !unseal_with(keys, Label::Block, sealed, plain) {
        return false;
    }
    match slot.region {
        Region::Input => true,
        Region::Mid => is_filled(item, count, plain),
        Region::Tail => is_filled(item, count, plain),
        Region::Output => is_filled(item, count, plain),
    }
}
