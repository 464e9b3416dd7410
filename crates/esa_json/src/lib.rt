//! JSON files: the bytes of a file read as one JSON object, and what the values in it are.
//!
//! What a text is as a value, repeated names among it, is the definition of the kit's `serde_json`: the last of
//! repeated names stands, and a text whose lists and objects nest more than 127 deep is no value. This crate adds
//! that the bytes have to be UTF-8 and the value an object, and gives the values of a list and whole numbers.
#![tactic(auto)]

ghost use Rattle.std.specs.Prelude.{◌≡◌, option_map, IfOk};
ghost use Rattle.serde_json.specs.View.{view};
ghost use Rattle.esa_json.specs.Object.{object_of, if_object};

mod values;

use serde_json::Value;
use std::alloc::{AllocError, Global};
use std::str;
pub use values::{number_in, values_in};

/// Reads the bytes as a JSON object. `None` exactly where they aren't one.
pub fn read_object(alloc: Global, bytes: &[u8]) -> Result<Option<Value>, AllocError>
    ensures { IfOk result (λ object. option_map view object ≡ object_of bytes.now) }
{
    let text = match str::from_utf8(bytes) {
        Ok(text) => text,
        Err(_) => return Ok(None),
    };
    match Value::from_str(alloc, text) {
        Ok(value) => Ok(only_object(value)),
        Err(error) => {
            if error.is_memory() {
                Err(AllocError)
            } else {
                Ok(None)
            }
        }
    }
}

/// The value, if it is an object.
fn only_object(value: Value) -> Option<Value>
    ensures { option_map view result ≡ if_object (view value) }
{
    if value.is_object() { Some(value) } else { None }
}
