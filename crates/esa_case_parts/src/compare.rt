//! What differs between bytes that are there and bytes that a case says.

ghost use Rattle.std.specs.Prelude.{◌≡◌, ◌≢◌, IfOk, IfNone, IfSome};
ghost use Rattle.std.specs.Option.{option_copied};

use std::alloc::{AllocError, Global};

/// How many bytes of a difference are shown.
const SHOWN: usize = 60;

/// What differs between a file and what is wanted of it, if anything does.
pub fn difference(
    alloc: Global,
    what: &str,
    has: Option<&[u8]>,
    wants: Option<&[u8]>,
) -> Result<Option<String>, AllocError>
    ensures none { IfOk result (λ found. IfNone found (option_copied has.entry ≡ option_copied wants.entry)) }
    ensures some { IfOk result (λ found. IfSome found (λ _. option_copied has.entry ≢ option_copied wants.entry)) }
{
    match (has, wants) {
        (None, None) => Ok(None),
        (Some(has), Some(wants)) => difference_of_bytes(alloc, what, has, wants),
        (Some(has), None) => {
            let has = shown(alloc, has)?;
            Ok(Some(format!(in alloc; "{what} is there, and isn't to be: {has}")?))
        }
        (None, Some(wants)) => {
            let wants = shown(alloc, wants)?;
            Ok(Some(format!(in alloc; "{what} isn't there, and is to be: {wants}")?))
        }
    }
}

/// What differs between bytes, if anything does.
pub fn difference_of_bytes(
    alloc: Global,
    what: &str,
    has: &[u8],
    wants: &[u8],
) -> Result<Option<String>, AllocError>
    ensures none { IfOk result (λ found. IfNone found (has.now ≡ wants.now)) }
    ensures some { IfOk result (λ found. IfSome found (λ _. has.now ≢ wants.now)) }
{
    if has == wants {
        return Ok(None);
    }
    Ok(Some(first_difference(alloc, what, has, wants)?))
}

/// What stands from the first place on where bytes differ.
fn first_difference(
    alloc: Global,
    what: &str,
    has: &[u8],
    wants: &[u8],
) -> Result<String, AllocError> {
    let place = has
        .iter()
        .zip(wants)
        .take_while(|pair| pair.0 == pair.1)
        .count();
    let found = shown(alloc, has.get(place..).unwrap_or_default())?;
    let wanted = shown(alloc, wants.get(place..).unwrap_or_default())?;
    format!(in alloc; "{what}, from byte {place} on: has \"{found}\" and not \"{wanted}\"")
}

/// The first bytes, as text where they are text.
fn shown(alloc: Global, bytes: &[u8]) -> Result<String, AllocError> {
    let mut text = String::new(alloc);
    for byte in bytes.iter().take(SHOWN) {
        match byte {
            b' '..=b'~' => text.push(char::from(*byte))?,
            byte => write!(text, "\\x{byte:02x}")?,
        }
    }
    if bytes.len() > SHOWN {
        text.push_str("..")?;
    }
    Ok(text)
}
