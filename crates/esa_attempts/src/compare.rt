//! What differs between lines that were printed and lines that a case says.

/// The first line that differs, as it is and as it was to be. A line that isn't there is empty.
pub fn differing_line<'a>(has: &'a [u8], wants: &'a [u8]) -> Option<(&'a str, &'a str)> {
    let (mut has, mut wants) = (text_of(has).lines(), text_of(wants).lines());
    for _ in 0..u64::MAX {
        match (has.next(), wants.next()) {
            (None, None) => return None,
            (here, there) if here == there => {}
            (here, there) => return Some((here.unwrap_or_default(), there.unwrap_or_default())),
        }
    }
    None
}

/// The bytes as text. Bytes that are none are an empty text.
fn text_of(bytes: &[u8]) -> &str {
    std::str::from_utf8(bytes).unwrap_or_default()
}
