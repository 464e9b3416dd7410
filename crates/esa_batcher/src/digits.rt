//! Envelopes in hexadecimal digits.

ghost use Rattle.std.specs.Prelude.{◌≡◌, ◌≤◌, ◌++◌, ◌∷◌, [], IfSome, OnOk, OnErr, length, vec_capacity};
ghost use Rattle.esa_bytes.specs.Hexadecimal.{hex_in};
ghost use Rattle.esa_header.specs.Pieces.{HaveLength};
ghost use Rattle.esa_batcher.specs.Adding.{AddsHex};

use esa_bytes::hex_into;
use std::alloc::AllocError;

/// Why a text was not added as an envelope.
#[derive(Clone, Copy, PartialEq, Eq, Debug)]
pub(crate) enum NotAdded {
    /// It isn't as many hexadecimal digits as are wanted.
    BadHex,
    /// There is no memory for one more envelope.
    OutOfMemory,
}

/// The bytes that the text writes, two digits for each.
fn decode<const P: usize>(text: &[u8]) -> Option<[u8; P]>
    ensures value { result ≡ hex_in P text.now }
    ensures size { IfSome result (λ envelope. length envelope ≡ P) }
{
    let mut envelope = [0; P];
    if hex_into(text, &mut envelope) {
        Some(envelope)
    } else {
        None
    }
}

/// Adds the envelope that the text writes.
pub(crate) fn push_decoded<const P: usize>(
    list: &mut Vec<[u8; P]>,
    text: &[u8],
) -> Result<(), NotAdded>
    ensures added { AddsHex P text.now list.old.items list.new.items result }
    ensures lengths { HaveLength P list.old.items → HaveLength P list.new.items }
    ensures full { result ≡ Err NotAdded.OutOfMemory → vec_capacity list.old ≤ length list.old.items }
    ensures capacity { vec_capacity list.old ≤ vec_capacity list.new }
{
    match decode::<P>(text) {
        Some(envelope) => match list.push(envelope) {
            Ok(()) => Ok(()),
            Err(_) => Err(NotAdded::OutOfMemory),
        },
        None => Err(NotAdded::BadHex),
    }
}

/// Adds a copy of the envelope.
pub(crate) fn push_copied<const P: usize>(
    list: &mut Vec<[u8; P]>,
    envelope: &[u8],
) -> Result<(), AllocError>
    requires size { length envelope.now ≡ P }
    ensures added { OnOk result (list.new.items ≡ list.old.items ++ envelope.now ∷ []) }
    ensures unchanged { OnErr result (list.new.items ≡ list.old.items) }
    ensures full { OnErr result (vec_capacity list.old ≤ length list.old.items) }
    ensures capacity { vec_capacity list.old ≤ vec_capacity list.new }
{
    let mut copy = [0; P];
    copy.copy_from_slice(envelope);
    list.push(copy)?;
    Ok(())
}
