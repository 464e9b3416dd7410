//! Sealing and opening.

ghost use Rattle.std.specs.Prelude.{◌≡◌, ◌+◌, ◌≤◌, length, Some, None, IsTrue, if◌then◌else◌};
ghost use Rattle.std.specs.Bool.{OnFalse};
ghost use Rattle.esa_envelope.specs.Envelope.{nonce_in, opened, sealed_as, tag_of};

use crate::keys::Keys;
use crate::keystream::cipher;
use crate::label::Label;
use esa_bytes::{put_u64, u64_at};
use esa_hmac::Mac;
use std::marker::Model;

/// The length of a nonce, in bytes.
const NONCE: usize = 8;

/// The length of a tag, in bytes.
const TAG: usize = 32;

/// Keys that are prepared once for many envelopes: the keyed part of each tag is computed already.
#[derive(Drop)]
pub struct Prepared {
    keys: Keys,
    mac: Mac,
}

impl Model for Prepared {
    ghost use Rattle.std.specs.Prelude.{[]};
    ghost use Rattle.esa_hmac.specs.Mac.{StandsFor};
    ghost use Rattle.esa_envelope.specs.declared.keys.Keys.{Keys};

    ghost Value = { Keys };

    ghost view = { λ prepared. prepared.keys };

    ghost invariant = { λ prepared. StandsFor prepared.mac prepared.keys.mac [] };
}

/// Prepares keys for any number of envelopes.
pub fn prepare(keys: &Keys) -> Prepared
    ensures { result ≡ keys.now }
{
    Prepared {
        keys: *keys,
        mac: Mac::start(&keys.mac),
    }
}

/// Seals a text of any length into `out`, which has 40 bytes more: the nonce's eight bytes, the
/// cipher text, and the tag of 32 bytes. The caller uses a nonce once under the same keys.
pub fn seal(keys: &Keys, label: Label, nonce: u64, plain: &[u8], out: &mut [u8])
    requires { length out.old ≡ length plain.now + 40 }
    ensures { out.new ≡ sealed_as keys.now label nonce plain.now }
{
    seal_with(&prepare(keys), label, nonce, plain, out);
}

/// Seals as [`seal`] does, under keys that were prepared.
pub fn seal_with(prepared: &Prepared, label: Label, nonce: u64, plain: &[u8], out: &mut [u8])
    requires { length out.old ≡ length plain.now + 40 }
    ensures { out.new ≡ sealed_as prepared.now label nonce plain.now }
{
    let tag_at = NONCE + plain.len();
    put_u64(out, 0, nonce);
    cipher(&prepared.keys.enc, nonce, plain, &mut out[NONCE..tag_at]);
    let tag = tag(prepared, label, &out[..tag_at]);
    out[tag_at..].copy_from_slice(&tag);
}

/// Opens an envelope into `out`, which has 40 bytes less. False exactly where the tag isn't that of
/// the bytes before it; `out` is then as it was.
pub fn unseal(keys: &Keys, label: Label, sealed: &[u8], out: &mut [u8]) -> bool
    requires { length sealed.now ≡ length out.old + 40 }
    ensures value { opened keys.now label sealed.now ≡ (if result then Some out.new else None) }
    ensures same { OnFalse result (out.new ≡ out.old) }
{
    unseal_with(&prepare(keys), label, sealed, out)
}

/// Opens as [`unseal`] does, under keys that were prepared.
#[tactic(auto, unfolding(crate::specs::Envelope::opened))]
pub fn unseal_with(prepared: &Prepared, label: Label, sealed: &[u8], out: &mut [u8]) -> bool
    requires { length sealed.now ≡ length out.old + 40 }
    ensures value { opened prepared.now label sealed.now ≡ (if result then Some out.new else None) }
    ensures same { OnFalse result (out.new ≡ out.old) }
{
    let tag_at = sealed.len() - TAG;
    if tag(prepared, label, &sealed[..tag_at]).as_slice() != &sealed[tag_at..] {
        return false;
    }
    let nonce = nonce_of(sealed);
    cipher(&prepared.keys.enc, nonce, &sealed[NONCE..tag_at], out);
    true
}

/// The nonce that an envelope was sealed with, which is in its first eight bytes.
pub fn nonce_of(sealed: &[u8]) -> u64
    requires { 8 ≤ length sealed.now }
    ensures { result ≡ nonce_in sealed.now }
{
    u64_at(sealed, 0)
}

/// Seals a text and opens the envelope again: it opens, and the text comes back.
pub fn seal_and_open(
    keys: &Keys,
    label: Label,
    nonce: u64,
    plain: &[u8],
    sealed: &mut [u8],
    out: &mut [u8],
) -> bool
    requires room { length sealed.old ≡ length plain.now + 40 }
    requires same_length { length out.old ≡ length plain.now }
    ensures sealed { sealed.new ≡ sealed_as keys.now label nonce plain.now }
    ensures opens { IsTrue result }
    ensures back { out.new ≡ plain.now }
    ensures round_trip { opened keys.now label (sealed_as keys.now label nonce plain.now) ≡ Some plain.now }
{
    seal(keys, label, nonce, plain, sealed);
    unseal(keys, label, sealed, out)
}

/// The tag of a nonce and a cipher text: their HMAC with the label's text before them.
fn tag(prepared: &Prepared, label: Label, body: &[u8]) -> [u8; 32]
    ensures { result ≡ tag_of prepared.now label body.now }
{
    let mut mac = prepared.mac.again();
    mac.feed(label.text());
    mac.feed(body);
    mac.finish()
}
