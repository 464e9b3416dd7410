//! What a job keeps of the values of its fields.

ghost use Rattle.std.specs.Prelude.{◌≡◌, [], ◌∷◌, ◌++◌, map, option_map, IfOk, OnOk};
ghost use Rattle.std.specs.List.{filter_map};
ghost use Rattle.std.specs.String.{string_bytes};
ghost use Rattle.serde_json.specs.View.{view};
ghost use Rattle.esa_job.specs.Values.{name_in};
ghost use Rattle.esa_job.specs.Decoded.{seen, meaning_in};

use crate::draft::Draft;
use crate::field::{JobField, Kind};
use crate::value::{Mode, draw_in, key_in, mode_in, name_in};
use esa_json::{number_in, values_in};
use esa_params::Draw;
use serde_json::Value;
use std::alloc::{AllocError, Global};

/// What the value of a field stands for.
#[derive(Drop)]
pub(crate) enum Decoded {
    /// The name of a file.
    Name(String),
    /// The names of files.
    Names(Vec<String>),
    /// A seed.
    Seed([u8; 32]),
    /// How the targets are drawn.
    Draw(Draw),
    /// A number.
    Number(u64),
    /// Who takes the turns.
    Mode(Mode),
}

/// The names with one more, if the value is one.
fn push_name(alloc: Global, names: &mut Vec<String>, value: &Value) -> Result<(), AllocError>
    ensures { OnOk result (map string_bytes names.new.items ≡ map string_bytes names.old.items ++ filter_map name_in (view value.now ∷ [])) }
{
    if let Some(name) = name_in(value) {
        names.push(String::from_str(alloc, name)?)?;
    }
    Ok(())
}

/// The names among the values.
fn names_of(alloc: Global, values: &[Value]) -> Result<Vec<String>, AllocError>
    ensures { IfOk result (λ names. map string_bytes names.items ≡ filter_map name_in (map view values.now)) }
{
    let mut names = Vec::new(alloc);
    for value in values {
        push_name(alloc, &mut names, value)?;
    }
    Ok(names)
}

/// The name that the value is.
fn decoded_name(alloc: Global, value: &Value) -> Result<Option<Decoded>, AllocError>
    ensures { IfOk result (λ decoded. option_map seen decoded ≡ meaning_in Kind.Name (view value.now)) }
{
    match name_in(value) {
        Some(name) => Ok(Some(Decoded::Name(String::from_str(alloc, name)?))),
        None => Ok(None),
    }
}

/// The names that the value is a list of.
fn decoded_names(alloc: Global, value: &Value) -> Result<Option<Decoded>, AllocError>
    ensures { IfOk result (λ decoded. option_map seen decoded ≡ meaning_in Kind.Names (view value.now)) }
{
    match values_in(value) {
        Some(values) => Ok(Some(Decoded::Names(names_of(alloc, values)?))),
        None => Ok(None),
    }
}

impl Kind {
    /// What the value stands for: nothing where it isn't of this kind.
    fn decode(self, alloc: Global, value: &Value) -> Result<Option<Decoded>, AllocError>
        ensures { IfOk result (λ decoded. option_map seen decoded ≡ meaning_in self (view value.now)) }
    {
        match self {
            Kind::Name => decoded_name(alloc, value),
            Kind::Names => decoded_names(alloc, value),
            Kind::Seed => Ok(key_in(value).map(Decoded::Seed)),
            Kind::Draw => Ok(draw_in(value).map(Decoded::Draw)),
            Kind::Number => Ok(number_in(value).map(Decoded::Number)),
            Kind::Mode => Ok(mode_in(value).map(Decoded::Mode)),
        }
    }
}

impl Draft {
    ghost use Rattle.esa_job.specs.Decoded.{meaning_at, meanings};
    ghost use Rattle.esa_job.specs.Draft.{drafted};

    /// What the value of the field stands for.
    fn decoded(&self, alloc: Global, field: JobField) -> Result<Option<Decoded>, AllocError>
        ensures { IfOk result (λ decoded. option_map seen decoded ≡ meaning_at (drafted self.now) field) }
    {
        match self.value(field) {
            Some(value) => field.kind().decode(alloc, value),
            None => Ok(None),
        }
    }

    /// What the values of these fields stand for.
    fn decode_each(
        &self,
        alloc: Global,
        fields: &[JobField],
    ) -> Result<Vec<Option<Decoded>>, AllocError>
        ensures { IfOk result (λ all. map (option_map seen) all.items ≡ map (meaning_at (drafted self.now)) fields.now) }
    {
        let mut all = Vec::with_capacity(alloc, fields.len())?;
        for field in fields {
            let decoded = self.decoded(alloc, *field)?;
            all.push(decoded)?;
        }
        Ok(all)
    }

    /// What the values of all fields stand for, in the order of the table.
    #[tactic(auto, unfolding(crate::specs::Table::fields))]
    pub(crate) fn decode(&self, alloc: Global) -> Result<Vec<Option<Decoded>>, AllocError>
        ensures { IfOk result (λ all. map (option_map seen) all.items ≡ meanings (drafted self.now)) }
    {
        self.decode_each(alloc, &JobField::IN_ORDER)
    }
}
