//! HMAC-SHA-256.

use esa_hmac::{Mac, hmac};
use std::test::Fail;

/// RFC 4231, test cases 1 and 2, and 6, whose key is longer than a block.
#[test]
fn hmac_vectors(rt: HostRuntime) -> Result<(), Fail> {
    let first =
        *b"\xb0\x34\x4c\x61\xd8\xdb\x38\x53\x5c\xa8\xaf\xce\xaf\x0b\xf1\x2b\x88\x1d\xc2\x00\xc9\x83\x3d\xa7\x26\xe9\x37\x6c\x2e\x32\xcf\xf7";
    let second =
        *b"\x5b\xdc\xc1\x46\xbf\x60\x75\x4e\x6a\x04\x24\x26\x08\x95\x75\xc7\x5a\x00\x3f\x08\x9d\x27\x39\x83\x9d\xec\x58\xb9\x64\xec\x38\x43";
    let sixth =
        *b"\x60\xe4\x31\x59\x1e\xe0\xb6\x7f\x0d\x8a\x26\xaa\xcb\xf5\xb7\x7f\x8e\x0b\xc6\x21\x37\x28\xc5\x14\x05\x46\x04\x0f\x0e\xe3\x7f\x54";
    assert_eq!(rt; hmac(&[0x0b; 20], b"Hi There"), first);
    assert_eq!(rt; hmac(b"Jefe", b"what do ya want for nothing?"), second);
    let long = hmac(
        &[0xaa; 131],
        b"Test Using Larger Than Block-Size Key - Hash Key First",
    );
    assert_eq!(rt; long, sixth);
    let mut mac = Mac::start(b"Jefe");
    mac.feed(b"what do ya ");
    let mut copy = mac.again();
    copy.feed(b"want for nothing?");
    assert_eq!(rt; copy.finish(), second);
    Ok(())
}
