//! The types that the values of a job's fields have.

ghost use Rattle.std.specs.Prelude.{◌≡◌, map, option_map};
ghost use Rattle.std.specs.List.{list_all};
ghost use Rattle.serde_json.specs.View.{view};
ghost use Rattle.esa_job.specs.Values.{accepts, draw_in, key_in, mode_in, name_in, is_name, is_name_list, holds_names, draw_named, mode_named};

use crate::field::Kind;
use esa_json::{number_in, values_in};
use esa_params::{Draw, MOST_INPUTS, MOST_OF_A_NAME};
use hex::FromHex;
use serde_json::Value;

/// Who takes the turns of a shuffle.
#[derive(Clone, Copy, PartialEq, Eq, Debug)]
pub enum Mode {
    /// One thread, which takes the turns that are handed in.
    Turns,
    /// Workers, which take turns as they come.
    Crew,
}

/// The name of a file: a text of 1 to 255 bytes.
pub(crate) fn name_in(value: &Value) -> Option<&str>
    ensures { option_map (λ text. text.now) result ≡ name_in (view value.now) }
{
    match value.as_str() {
        Some(text) if !text.is_empty() && text.len() <= MOST_OF_A_NAME => Some(text),
        _ => None,
    }
}

/// 32 bytes as 64 hexadecimal digits, of either case.
pub(crate) fn key_in(value: &Value) -> Option<[u8; 32]>
    ensures { result ≡ key_in (view value.now) }
{
    match value.as_str() {
        Some(text) => <[u8; 32] as FromHex>::from_hex(text).ok(),
        None => None,
    }
}

fn draw_word(text: &str) -> Option<Draw>
    ensures { result ≡ draw_named text.now }
{
    match text {
        "single" => Some(Draw::Single),
        "separators" => Some(Draw::Separators),
        _ => None,
    }
}

/// How the targets are drawn.
pub(crate) fn draw_in(value: &Value) -> Option<Draw>
    ensures { result ≡ draw_in (view value.now) }
{
    value.as_str().and_then(draw_word)
}

fn mode_word(text: &str) -> Option<Mode>
    ensures { result ≡ mode_named text.now }
{
    match text {
        "turns" => Some(Mode::Turns),
        "crew" => Some(Mode::Crew),
        _ => None,
    }
}

/// Who takes the turns.
pub(crate) fn mode_in(value: &Value) -> Option<Mode>
    ensures { result ≡ mode_in (view value.now) }
{
    value.as_str().and_then(mode_word)
}

fn is_name(value: &Value) -> bool
    ensures { result ≡ is_name (view value.now) }
{
    name_in(value).is_some()
}

/// Whether each of the values is a name.
fn are_names(values: &[Value]) -> bool
    ensures { result ≡ list_all (λ value. is_name (view value)) values.now }
{
    values.iter().all(is_name)
}

/// Whether these are 1 to 16 names.
fn is_name_list(values: &[Value]) -> bool
    ensures { result ≡ is_name_list (map view values.now) }
{
    1 <= values.len() && values.len() <= MOST_INPUTS && are_names(values)
}

/// Whether the value is a list of 1 to 16 names.
fn holds_names(value: &Value) -> bool
    ensures { result ≡ holds_names (view value.now) }
{
    match values_in(value) {
        Some(values) => is_name_list(values),
        None => false,
    }
}

impl Kind {
    /// Whether the value is of this type.
    pub(crate) fn accepts(self, value: &Value) -> bool
        ensures { result ≡ accepts self (view value.now) }
    {
        match self {
            Kind::Name => is_name(value),
            Kind::Names => holds_names(value),
            Kind::Seed => key_in(value).is_some(),
            Kind::Draw => draw_in(value).is_some(),
            Kind::Number => number_in(value).is_some(),
            Kind::Mode => mode_in(value).is_some(),
        }
    }
}
