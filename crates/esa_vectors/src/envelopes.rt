//! Keystream and envelopes.

use esa_bytes::hex_into;
use esa_envelope::{
    Keys, Label, epoch_master, keys_of, nonce_of, prepare, seal, seal_with, unseal, unseal_with,
};
use std::process::Abort;
use std::test::Fail;

/// The bytes that hexadecimal digits write.
fn bytes<const N: usize>(rt: &impl Abort, text: &[u8]) -> [u8; N] {
    let mut out = [0; N];
    assert!(rt; hex_into(text, &mut out));
    out
}

/// Zero bytes under a zero key and nonce 0 are the first bytes of ChaCha20's keystream.
#[test]
fn seal_vector(rt: HostRuntime) -> Result<(), Fail> {
    let keys = Keys {
        enc: [0; 32],
        mac: [0; 32],
    };
    let mut sealed = [0; 72];
    seal(&keys, Label::Inner, 0, &[0; 32], &mut sealed);
    let stream: [u8; 32] = bytes(
        &rt,
        b"76b8e0ada0f13d90405d6ae55386bd28bdd219b8a08ded1aa836efcc8b770dc7",
    );
    assert_eq!(rt; &sealed[8..40], stream.as_slice());
    Ok(())
}

/// Envelopes that Python's hashlib and a ChaCha20 by hand made.
#[test]
fn envelopes_from_outside(rt: HostRuntime) -> Result<(), Fail> {
    let master: [u8; 32] = bytes(
        &rt,
        b"000102030405060708090a0b0c0d0e0f101112131415161718191a1b1c1d1e1f",
    );
    let inner: [u8; 104] = bytes(
        &rt,
        b"0000000000000001763d2df90075827aeff08fafa1f2eb975065009f15c4fef89164fc381237069dc174970462c755c759037c050312c0df7b48fa65d12aa0fac0dff70595171e2c53e6eaeb745a38d41f2e37fb519a670a2e9b341b11cf76db761eb69104d7a968",
    );
    let block: [u8; 47] = bytes(
        &rt,
        b"000000010000000533f75091751664925b1be6c01450e10e09ad42a2d397d049fe31244e624be11953d046677d9581",
    );
    let epoch: [u8; 32] = bytes(
        &rt,
        b"3498cc44f7e69ef541ceb0c304819a13271265ecca9d9785b40563c832992e15",
    );
    let mut report = [0; 64];
    report[..4].copy_from_slice(b"\x00\x02hi");
    let keys = prepare(&keys_of(&master, Label::Inner));

    let mut sealed = [0; 104];
    seal_with(&keys, Label::Inner, 1, &report, &mut sealed);
    assert_eq!(rt; sealed, inner);
    let mut opened = [0; 64];
    assert!(rt; unseal_with(&keys, Label::Inner, &inner, &mut opened));
    assert_eq!(rt; opened, report);
    assert!(rt; !unseal_with(&keys, Label::Outer, &inner, &mut opened));

    let mut sealed = [0; 47];
    let keys = keys_of(&master, Label::Block);
    seal(&keys, Label::Block, (1 << 32) + 5, b"seven b", &mut sealed);
    assert_eq!(rt; sealed, block);
    assert_eq!(rt; nonce_of(&sealed), (1 << 32) + 5);
    sealed[46] ^= 1;
    assert!(rt; !unseal(&keys, Label::Block, &sealed, &mut [0; 7]));
    assert_eq!(rt; epoch_master(&master, 7), epoch);
    Ok(())
}
