//! The field against the examples of FIPS 197, and shares by hand.

use crate::{ShareShaper, evaluate, explain, inverse, mul, recover};
use esa_encoder::{EncodeRefused, Shaper, encode_by};
use esa_envelope::{Label, keys_of};
use esa_line::{LineCause, LineRefused};
use esa_params::Form;
use std::test::Fail;

/// The secret 41 with the coefficient 01 is 40 at 1 and 43 at 2, and these two give it back.
#[test]
fn field_vectors(rt: HostRuntime) {
    assert!(&rt; mul(0x57, 0x83) == 0xc1);
    assert!(&rt; inverse(0x53) == 0xca);
    let mut one = [0];
    evaluate(b"A", &[1], 1, &mut one);
    assert!(&rt; one == [0x40]);
    let mut two = [0];
    evaluate(b"A", &[1], 2, &mut two);
    assert!(&rt; two == [0x43]);
    let mut secret = [0];
    recover(&[1, 2], &[0x40, 0x43], &mut secret);
    assert!(&rt; secret == *b"A");
    let mut coefs = [0; 2];
    explain(b"B", &[1, 2], &[0x40, 0x43], &mut coefs);
    let mut share = [0];
    evaluate(b"B", &coefs, 2, &mut share);
    assert!(&rt; share == two);
}

/// The bytes 40 to 5f, in hexadecimal.
fn share_key() -> [u8; 32] {
    let mut key = [0; 32];
    for place in 0..32u8 {
        key[place as usize] = 0x40 + place;
    }
    key
}

/// Share records as Python's hashlib and hmac make them, at the points 1, 255 and 2.
#[test]
fn shares_from_outside(rt: HostRuntime) {
    let mut out = [0; 190];
    let pair = ShareShaper::make(2, share_key());
    assert_eq!(&rt; pair.shape(b"abc", 0, &mut out), Some(22));
    assert_eq!(&rt;
        &out[..22],
        b"\xe5\x02\x01\xba\x78\x16\xbf\x8f\x01\xcf\xea\x41\x41\x40\xde\x5d\xae\x22\x23\xa7\x16\x0d".as_slice()
    );
    assert_eq!(&rt; pair.shape(b"abc", 254, &mut out), Some(22));
    assert_eq!(&rt;
        &out[..22],
        b"\xe5\x02\xff\xba\x78\x16\xbf\x8f\x01\xcf\xea\x41\x41\x40\xde\x5d\xae\x22\x23\x8f\xb7\x83".as_slice()
    );
    let three = ShareShaper::make(3, share_key());
    assert_eq!(&rt; three.shape(b"abc", 256, &mut out), Some(22));
    assert_eq!(&rt;
        &out[..22],
        b"\xe5\x03\x02\xba\x78\x16\xbf\x8f\x01\xcf\xea\x41\x41\x40\xde\x5d\xae\x22\x23\x2a\x32\x1b".as_slice()
    );
    assert_eq!(&rt; three.shape(b"", 1, &mut out), Some(0));
    assert_eq!(&rt; three.shape(&[7; 172], 1, &mut out), None);
}

/// A share of 43 bytes is the longest that a report of form One carries.
#[test]
fn share_too_long(rt: HostRuntime) -> Result<(), Fail> {
    let keys = keys_of(&share_key(), Label::Outer);
    let shaper = ShareShaper::make(2, share_key());
    let mut line = [b'v'; 50];
    line[..6].copy_from_slice(b"1\ts\tc\t");
    let accepted = encode_by(rt.alloc(), Form::One, &line[..49], &keys, &keys, 0, &shaper)?;
    assert_eq!(&rt; accepted.len(), 357);
    let refused = encode_by(rt.alloc(), Form::One, &line, &keys, &keys, 0, &shaper);
    let wanted = LineRefused {
        line: 1,
        cause: LineCause::TooLong,
    };
    assert_eq!(&rt; refused.err(), Some(EncodeRefused::Line(wanted)));
    Ok(())
}
