//! Bytes in hexadecimal digits.

ghost use Rattle.std.specs.Prelude.{◌≡◌, ◌*◌, ◌↔◌, length, unwrap_or, IsTrue, Some, None, if◌then◌else◌};
ghost use Rattle.std.specs.List.{AllPass};
ghost use Rattle.hex.specs.Hex.{hex_digit_value, is_hex_digit};
ghost use Rattle.esa_bytes.specs.Hexadecimal.{hex_in};

/// What stands for a byte that is no digit: more than two digits write.
const NONE: u16 = 256;

/// The value of each byte as a digit of either case.
static VALUES: [u16; 256] = [
    NONE, NONE, NONE, NONE, NONE, NONE, NONE, NONE, NONE, NONE, NONE, NONE, NONE, NONE, NONE, NONE,
    NONE, NONE, NONE, NONE, NONE, NONE, NONE, NONE, NONE, NONE, NONE, NONE, NONE, NONE, NONE, NONE,
    NONE, NONE, NONE, NONE, NONE, NONE, NONE, NONE, NONE, NONE, NONE, NONE, NONE, NONE, NONE, NONE,
    0, 1, 2, 3, 4, 5, 6, 7, 8, 9, NONE, NONE, NONE, NONE, NONE, NONE, NONE, 10, 11, 12, 13, 14, 15,
    NONE, NONE, NONE, NONE, NONE, NONE, NONE, NONE, NONE, NONE, NONE, NONE, NONE, NONE, NONE, NONE,
    NONE, NONE, NONE, NONE, NONE, NONE, NONE, NONE, NONE, NONE, 10, 11, 12, 13, 14, 15, NONE, NONE,
    NONE, NONE, NONE, NONE, NONE, NONE, NONE, NONE, NONE, NONE, NONE, NONE, NONE, NONE, NONE, NONE,
    NONE, NONE, NONE, NONE, NONE, NONE, NONE, NONE, NONE, NONE, NONE, NONE, NONE, NONE, NONE, NONE,
    NONE, NONE, NONE, NONE, NONE, NONE, NONE, NONE, NONE, NONE, NONE, NONE, NONE, NONE, NONE, NONE,
    NONE, NONE, NONE, NONE, NONE, NONE, NONE, NONE, NONE, NONE, NONE, NONE, NONE, NONE, NONE, NONE,
    NONE, NONE, NONE, NONE, NONE, NONE, NONE, NONE, NONE, NONE, NONE, NONE, NONE, NONE, NONE, NONE,
    NONE, NONE, NONE, NONE, NONE, NONE, NONE, NONE, NONE, NONE, NONE, NONE, NONE, NONE, NONE, NONE,
    NONE, NONE, NONE, NONE, NONE, NONE, NONE, NONE, NONE, NONE, NONE, NONE, NONE, NONE, NONE, NONE,
    NONE, NONE, NONE, NONE, NONE, NONE, NONE, NONE, NONE, NONE, NONE, NONE, NONE, NONE, NONE, NONE,
    NONE, NONE, NONE, NONE, NONE, NONE, NONE, NONE, NONE, NONE, NONE, NONE, NONE, NONE, NONE, NONE,
    NONE, NONE, NONE, NONE, NONE, NONE, NONE,
];

/// The value of a digit, or 256 where the byte is none.
fn digit_value(byte: u8) -> u16
    ensures { result ≡ unwrap_or (hex_digit_value byte) 256 }
{
    VALUES[byte as usize]
}

/// Fills `out` with the bytes that the text writes, two digits for each, in either case. False
/// exactly where the text isn't `2 * out.len()` hexadecimal digits; what `out` holds then isn't
/// said.
///
/// A table says what a digit is worth, so that each byte takes one test.
pub fn hex_into(text: &[u8], out: &mut [u8]) -> bool
    ensures accepted { IsTrue result
        ↔ ((length text.now ≡ 2 * length out.old) × AllPass is_hex_digit text.now) }
    ensures value { hex_in (length out.old) text.now ≡ (if result then Some out.new else None) }
{
    if text.len() % 2 != 0 || text.len() / 2 != out.len() {
        return false;
    }
    for place in 0..out.len() {
        let byte = digit_value(text[2 * place]) * 16 + digit_value(text[2 * place + 1]);
        if NONE <= byte {
            return false;
        }
        out[place] = byte as u8;
    }
    true
}
