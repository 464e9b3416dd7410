//! Numbers of two, four or eight bytes at a place, highest byte first.

ghost use Rattle.std.specs.Prelude.{◌≡◌, ◌+◌, ◌≤◌, length};
ghost use Rattle.std.specs.Int.{w16, w32, w64, to_be_bytes};
ghost use Rattle.esa_bytes.specs.Field.{u16_in, u32_in, u64_in, overwrite};

/// The number in the two bytes from `at` on, highest byte first.
pub fn u16_at(bytes: &[u8], at: usize) -> u16
    requires { at + 2 ≤ length bytes.now }
    ensures { result ≡ u16_in bytes.now at }
{
    u16::from_be_bytes([bytes[at], bytes[at + 1]])
}

/// The number in the four bytes from `at` on, highest byte first.
pub fn u32_at(bytes: &[u8], at: usize) -> u32
    requires { at + 4 ≤ length bytes.now }
    ensures { result ≡ u32_in bytes.now at }
{
    u32::from_be_bytes([bytes[at], bytes[at + 1], bytes[at + 2], bytes[at + 3]])
}

/// The number in the eight bytes from `at` on, highest byte first.
pub fn u64_at(bytes: &[u8], at: usize) -> u64
    requires { at + 8 ≤ length bytes.now }
    ensures { result ≡ u64_in bytes.now at }
{
    u64::from_be_bytes([
        bytes[at],
        bytes[at + 1],
        bytes[at + 2],
        bytes[at + 3],
        bytes[at + 4],
        bytes[at + 5],
        bytes[at + 6],
        bytes[at + 7],
    ])
}

/// Writes the number to the two bytes from `at` on, highest byte first. All other bytes stay.
pub fn put_u16(out: &mut [u8], at: usize, v: u16)
    requires { at + 2 ≤ length out.old }
    ensures written { out.new ≡ overwrite out.old at (to_be_bytes w16 v) }
    ensures reads_back { u16_in out.new at ≡ v }
{
    out[at..at + 2].copy_from_slice(&v.to_be_bytes());
}

/// Writes the number to the four bytes from `at` on, highest byte first. All other bytes stay.
pub fn put_u32(out: &mut [u8], at: usize, v: u32)
    requires { at + 4 ≤ length out.old }
    ensures written { out.new ≡ overwrite out.old at (to_be_bytes w32 v) }
    ensures reads_back { u32_in out.new at ≡ v }
{
    out[at..at + 4].copy_from_slice(&v.to_be_bytes());
}

/// Writes the number to the eight bytes from `at` on, highest byte first. All other bytes stay.
pub fn put_u64(out: &mut [u8], at: usize, v: u64)
    requires { at + 8 ≤ length out.old }
    ensures written { out.new ≡ overwrite out.old at (to_be_bytes w64 v) }
    ensures reads_back { u64_in out.new at ≡ v }
{
    out[at..at + 8].copy_from_slice(&v.to_be_bytes());
}
