//! The bytes of a trace file: its header, and an access.

ghost use Rattle.std.specs.Prelude.{◌≡◌, ◌<◌};
ghost use Rattle.esa_spec.specs.Files.{op_code, region_code, access_bytes, trace_header};

use esa_params::{Access, Op, Region};

/// An operation by number.
fn code_of_op(op: Op) -> u8
    ensures { result ≡ op_code op }
{
    match op {
        Op::Read => 0,
        Op::Write => 1,
    }
}

/// A region by number.
fn code_of_region(region: Region) -> u8
    ensures { result ≡ region_code region }
{
    match region {
        Region::Input => 0,
        Region::Mid => 1,
        Region::Tail => 2,
        Region::Output => 3,
    }
}

/// The header of the file of so many accesses.
pub(crate) fn header(count: u32) -> [u8; 9]
    ensures { result ≡ trace_header count }
{
    let [n0, n1, n2, n3] = count.to_be_bytes();
    [b'E', b'S', b'A', b'T', 1, n0, n1, n2, n3]
}

/// An access. Its attempt has one byte.
pub(crate) fn spell(access: &Access) -> [u8; 19]
    requires { access.now.attempt < 256 }
    ensures { result ≡ access_bytes access.now }
{
    let [i0, i1, i2, i3] = access.index.to_be_bytes();
    let [l0, l1, l2, l3] = access.length.to_be_bytes();
    let [n0, n1, n2, n3, n4, n5, n6, n7] = access.nonce.to_be_bytes();
    [
        code_of_op(access.op),
        code_of_region(access.region),
        access.attempt as u8,
        i0,
        i1,
        i2,
        i3,
        l0,
        l1,
        l2,
        l3,
        n0,
        n1,
        n2,
        n3,
        n4,
        n5,
        n6,
        n7,
    ]
}
