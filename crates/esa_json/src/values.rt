//! What a JSON value is: the values of a list, or a whole number.

ghost use Rattle.std.specs.Prelude.{◌≡◌, map, option_map};
ghost use Rattle.serde_json.specs.View.{view};
ghost use Rattle.esa_json.specs.Values.{values_in, number_in};

use serde_json::Value;

/// The values of a list, in their order. `None` exactly where the value is no list.
pub fn values_in(value: &Value) -> Option<&[Value]>
    ensures { option_map (λ values. map view values.now) result ≡ values_in (view value.now) }
{
    match value.as_array() {
        Some(values) => Some(values.as_slice()),
        None => None,
    }
}

/// A whole number from 0 to 2^64 - 1. `None` exactly where the value is none.
pub fn number_in(value: &Value) -> Option<u64>
    ensures { result ≡ number_in (view value.now) }
{
    value.as_u64()
}
