//! Crowds and reports.

use esa_bytes::hex_into;
use esa_report::{TooLong, code, crowd_of, value_of};
use std::test::Fail;

/// A crowd's id, a report byte by byte, and the longest value of each form and one byte more.
#[test]
fn report_limits(rt: HostRuntime) -> Result<(), Fail> {
    let mut crowd = [0; 32];
    let digits = b"ba7816bf8f01cfea414140de5dae2223b00361a396177a9cb410ff61f20015ad";
    assert!(rt; hex_into(digits, &mut crowd));
    assert_eq!(rt; crowd_of(b"abc"), crowd);

    let mut report = [0; 64];
    report[..4].copy_from_slice(b"\x00\x02hi");
    assert_eq!(rt; code::<64>(b"hi"), Ok(report));
    assert_eq!(rt; value_of(&report), Some(b"hi".as_slice()));
    report[63] = 1;
    assert!(rt; value_of(&report).is_none());

    let value = [b'v'; 191];
    assert!(rt; code::<64>(&value[..62]).is_ok());
    assert_eq!(rt; code::<64>(&value[..63]), Err(TooLong { length: 63 }));
    assert!(rt; code::<192>(&value[..190]).is_ok());
    assert_eq!(rt; code::<192>(&value), Err(TooLong { length: 191 }));
    Ok(())
}
