//! Envelopes opened to items.

ghost use Rattle.std.specs.Prelude.{◌≡◌, ◌≢◌, ◌-◌, length, drop, IsTrue};
ghost use Rattle.esa_report.specs.Item.{is_well_formed};
ghost use Rattle.esa_report.specs.Zero.{is_zero};
ghost use Rattle.esa_vault.specs.Items.{IsEnvelopeLength, item_of};

use esa_envelope::{Label, Prepared, unseal_with};
use esa_report::{Item, Kind};

/// The bytes that an envelope has beyond its text.
const SEAL: usize = 40;

/// The length of the longest body, in bytes.
const BODY: usize = 264;

/// The item of an outer envelope of 176 or 304 bytes: real with the text that it opens to under the outer
/// keys, and malformed where it doesn't open.
pub fn item_of(outer: &Prepared, envelope: &[u8]) -> Item
    requires { IsEnvelopeLength (length envelope.now) }
    ensures value { result ≡ item_of outer.now envelope.now }
    ensures not_dummy { result.kind ≢ Kind.Dummy }
    ensures well_formed { IsTrue (is_well_formed result) }
    ensures padded { IsTrue (is_zero (drop (length envelope.now - 40) result.body)) }
{
    let mut body = [0; BODY];
    let text = envelope.len() - SEAL;
    if !unseal_with(outer, Label::Outer, envelope, &mut body[..text]) {
        return Item::malformed();
    }
    Item {
        kind: Kind::Real,
        body,
    }
}
