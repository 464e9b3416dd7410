//! The lines of a text, one taken off after the other.

ghost use Rattle.std.specs.Prelude.{◌≡◌, ◌<◌, ◌≤◌, ◌↔◌, [], ◌∷◌, length, IsNone, IfSome, IfNone};
ghost use Rattle.std.specs.List.{position_or_len};
ghost use Rattle.esa_bytes.specs.Lines.{IsFirstLine, is_newline, text_lines};

use memchr::memchr;

/// The first line of a text, without its newline byte, and the text behind it. None where the text is
/// empty, which has no line.
pub fn split_line(text: &[u8]) -> Option<(&[u8], &[u8])>
    ensures none { IsNone result ↔ (text.now ≡ []) }
    ensures place { IfSome result (λ parts. IsFirstLine text.now parts.0.now parts.1.now) }
    ensures lines { IfSome result (λ parts. text_lines text.now ≡ parts.0.now ∷ text_lines parts.1.now) }
    ensures last { IfNone result (text_lines text.now ≡ []) }
    ensures shorter { IfSome result (λ parts. length parts.1.now < length text.now) }
{
    if text.is_empty() {
        return None;
    }
    let end = line_length(text);
    if end < text.len() {
        Some((&text[..end], &text[end + 1..]))
    } else {
        Some((text, &text[end..]))
    }
}

/// The number of lines of a text.
pub fn line_count(text: &[u8]) -> u64
    ensures { result ≡ length (text_lines text.now) }
{
    let mut count = 0;
    let mut rest = text;
    while let Some((_, behind)) = split_line(rest) {
        count += 1;
        rest = behind;
    }
    count
}

/// The place of the first newline byte, or the text's length where there is none.
fn line_length(text: &[u8]) -> usize
    ensures place { result ≡ position_or_len is_newline text.now }
    ensures within { result ≤ length text.now }
{
    memchr(b'\n', text).unwrap_or(text.len())
}
