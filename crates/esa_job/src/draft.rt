//! A job before it is judged, and the rules that it is judged by.

ghost use Rattle.std.specs.Prelude.{◌≡◌, map, bytes_eq, option_map};
ghost use Rattle.std.specs.List.{list_any};
ghost use Rattle.serde_json.specs.View.{view};
ghost use Rattle.esa_job.specs.Refusal.{is_ill_typed, is_missing, lacks_coins, draws_separators, breaks_rule, is_bad, first_bad, runs_crew, crew_refusal, is_name_of, is_named, has_name, is_taken, clashes, first_clash, params_of, number_or_zero, first_param_past, is_past, param_of, first_past_field, first_other_past, first_limit_past, field_refusal, refusal_of};

use crate::command::Command;
use crate::field::{JobField, Need};
use crate::job::JobRefused;
use crate::value::{Mode, draw_in, mode_in, name_in};
use esa_json::{number_in, values_in};
use esa_params::{Draw, ParamField, Params, check};
use serde_json::Value;

/// The command of a job, and the JSON object that its file is.
#[derive(Drop)]
pub(crate) struct Draft {
    pub(crate) command: Command,
    pub(crate) object: Value,
}

impl Draft {
    ghost use Rattle.esa_job.specs.Request.{value_at, is_there, name_at, number_at, draw_at, mode_at, list_at, inputs_at};
    ghost use Rattle.esa_job.specs.Draft.{drafted};

    /// The value of a field: nothing where it isn't there, or where the command ignores it.
    pub(crate) fn value(&self, field: JobField) -> Option<&Value>
        ensures { option_map (λ value. view value.now) result ≡ value_at (drafted self.now) field }
    {
        match field.need(self.command) {
            Need::Unused => None,
            Need::Optional | Need::Needed => self.object.get(field.word()),
        }
    }

    fn has(&self, field: JobField) -> bool
        ensures { result ≡ is_there (drafted self.now) field }
    {
        self.value(field).is_some()
    }

    fn is_ill_typed(&self, field: JobField) -> bool
        ensures { result ≡ is_ill_typed (drafted self.now) field }
    {
        match self.value(field) {
            Some(value) => !field.kind().accepts(value),
            None => false,
        }
    }

    fn is_missing(&self, field: JobField) -> bool
        ensures { result ≡ is_missing (drafted self.now) field }
    {
        field.need(self.command) == Need::Needed && !self.has(field)
    }

    /// The name of a file.
    fn name(&self, field: JobField) -> Option<&str>
        ensures { option_map (λ name. name.now) result ≡ name_at (drafted self.now) field }
    {
        name_in(self.value(field)?)
    }

    /// A number.
    fn number_of(&self, field: JobField) -> Option<u64>
        ensures { result ≡ number_at (drafted self.now) field }
    {
        number_in(self.value(field)?)
    }

    // ---- the first bad field

    /// Whether there are neither coins nor a seed, for a command that uses them.
    fn lacks_coins(&self) -> bool
        ensures { result ≡ lacks_coins (drafted self.now) }
    {
        JobField::Coins.need(self.command) != Need::Unused
            && !self.has(JobField::Coins)
            && !self.has(JobField::Seed)
    }

    fn draws_separators(&self) -> bool
        ensures { result ≡ draws_separators (drafted self.now) }
    {
        match self.draw() {
            Some(Draw::Separators) => true,
            Some(Draw::Single) | None => false,
        }
    }

    /// Whether the field breaks a rule of its own.
    fn breaks_rule(&self, field: JobField) -> bool
        ensures { result ≡ breaks_rule (drafted self.now) field }
    {
        match field {
            JobField::Coins => self.lacks_coins(),
            JobField::Seed => self.has(JobField::Seed) && self.has(JobField::Coins),
            JobField::Draw => self.draws_separators() && !self.has(JobField::Seed),
            _ => false,
        }
    }

    fn is_bad(&self, field: JobField) -> bool
        ensures { result ≡ is_bad (drafted self.now) field }
    {
        self.is_missing(field) || self.is_ill_typed(field) || self.breaks_rule(field)
    }

    #[tactic(auto, unfolding(crate::specs::Refusal::first_bad, crate::specs::Table::fields))]
    fn first_bad(&self) -> Option<JobField>
        ensures { result ≡ first_bad (drafted self.now) }
    {
        JobField::IN_ORDER
            .iter()
            .copied()
            .find(|field| self.is_bad(*field))
    }

    // ---- workers

    fn runs_crew(&self) -> bool
        ensures { result ≡ runs_crew (drafted self.now) }
    {
        match self.mode() {
            Some(Mode::Crew) => true,
            Some(Mode::Turns) | None => false,
        }
    }

    /// Workers take no handed-in turns, and run only where they may.
    fn crew_refusal(&self, crew_allowed: bool) -> Option<JobField>
        ensures { result ≡ crew_refusal crew_allowed (drafted self.now) }
    {
        if !self.runs_crew() {
            None
        } else if self.has(JobField::Turns) {
            Some(JobField::Turns)
        } else if self.command.only_plans() || !crew_allowed {
            Some(JobField::Mode)
        } else {
            None
        }
    }

    // ---- values

    fn draw(&self) -> Option<Draw>
        ensures { result ≡ draw_at (drafted self.now) }
    {
        draw_in(self.value(JobField::Draw)?)
    }

    fn mode(&self) -> Option<Mode>
        ensures { result ≡ mode_at (drafted self.now) }
    {
        mode_in(self.value(JobField::Mode)?)
    }

    /// The values of the list of inputs.
    fn inputs(&self) -> &[Value]
        ensures { map view result.now ≡ list_at (drafted self.now) }
    {
        match self.value(JobField::Inputs) {
            Some(value) => values_in(value).unwrap_or(&[]),
            None => &[],
        }
    }

    // ---- names of files to write

    /// Whether the field has this name.
    fn is_named(&self, field: JobField, name: &str) -> bool
        ensures { result ≡ is_named (drafted self.now) name.now field }
    {
        match self.name(field) {
            Some(found) => name == found,
            None => false,
        }
    }

    /// Whether one of the fields has this name.
    fn has_name(&self, fields: &[JobField], name: &str) -> bool
        ensures { result ≡ has_name (drafted self.now) fields.now name.now }
    {
        fields.iter().any(|field| self.is_named(*field, name))
    }

    /// Whether one of the inputs has this name.
    fn has_input(&self, name: &str) -> bool
        ensures { result ≡ list_any (bytes_eq name.now) (inputs_at (drafted self.now)) }
    {
        is_among(self.inputs(), name)
    }

    /// Whether the name is that of the job file, of a file to read, or of one of these fields.
    fn is_taken(&self, job_name: &str, earlier: &[JobField], name: &str) -> bool
        ensures { result ≡ is_taken (drafted self.now) job_name.now earlier.now name.now }
    {
        name == job_name
            || self.has_name(&JobField::READ, name)
            || self.has_input(name)
            || self.has_name(earlier, name)
    }

    fn clashes(&self, job_name: &str, field: JobField, earlier: &[JobField]) -> bool
        ensures { result ≡ clashes (drafted self.now) job_name.now field earlier.now }
    {
        match self.name(field) {
            Some(name) => self.is_taken(job_name, earlier, name),
            None => false,
        }
    }

    /// The first file to write whose name is taken.
    #[tactic(auto, unfolding(crate::specs::Refusal::first_clash))]
    fn first_clash(&self, job_name: &str) -> Option<JobField>
        ensures { result ≡ first_clash (drafted self.now) job_name.now }
    {
        if self.clashes(job_name, JobField::Output, &[]) {
            Some(JobField::Output)
        } else if self.clashes(job_name, JobField::Trace, &[JobField::Output]) {
            Some(JobField::Trace)
        } else if self.clashes(
            job_name,
            JobField::TurnsOut,
            &[JobField::Output, JobField::Trace],
        ) {
            Some(JobField::TurnsOut)
        } else {
            None
        }
    }

    // ---- limits

    fn number_or_zero(&self, field: JobField) -> u64
        ensures { result ≡ number_or_zero (drafted self.now) field }
    {
        self.number_of(field).unwrap_or(0)
    }

    /// The parameters of a shuffle.
    pub(crate) fn params(&self) -> Params
        ensures { result ≡ params_of (drafted self.now) }
    {
        Params {
            b: self.number_or_zero(JobField::B),
            c: self.number_or_zero(JobField::C),
            s: self.number_or_zero(JobField::S),
            k: self.number_or_zero(JobField::K),
            w: self.number_or_zero(JobField::W),
            q: self.number_or_zero(JobField::Q),
            workers: self.number_or_zero(JobField::Workers),
            attempts: self.number_or_zero(JobField::Attempts),
        }
    }

    /// The first parameter past its limits, for a command that uses them.
    fn first_param_past(&self) -> Option<ParamField>
        ensures { result ≡ first_param_past (drafted self.now) }
    {
        match JobField::B.need(self.command) {
            Need::Unused => None,
            Need::Optional | Need::Needed => match check(&self.params()) {
                Ok(_) => None,
                Err(refused) => Some(refused.0),
            },
        }
    }

    /// Whether the number is there, and isn't within the limits of its row.
    fn is_past(&self, field: JobField) -> bool
        ensures { result ≡ is_past (drafted self.now) field }
    {
        match (field.limits(), self.number_of(field)) {
            (Some(limits), Some(number)) => {
                number < u64::from(limits.least) || u64::from(limits.greatest) < number
            }
            _ => false,
        }
    }

    /// The first of the other numbers that is past its limits.
    #[tactic(auto, unfolding(crate::specs::Table::limited_fields))]
    fn first_past_field(&self) -> Option<JobField>
        ensures { result ≡ first_past_field (drafted self.now) }
    {
        JobField::LIMITED
            .iter()
            .copied()
            .find(|field| self.is_past(*field))
    }

    #[tactic(auto, unfolding(crate::specs::Refusal::first_other_past))]
    fn first_other_past(&self) -> Option<ParamField>
        ensures { result ≡ first_other_past (drafted self.now) }
    {
        match self.first_past_field() {
            Some(field) => param_of(field),
            None => None,
        }
    }

    fn first_limit_past(&self) -> Option<ParamField>
        ensures { result ≡ first_limit_past (drafted self.now) }
    {
        self.first_param_past().or(self.first_other_past())
    }

    // ---- all together, in order

    /// The first field that the job is refused for.
    fn field_refusal(&self, crew_allowed: bool, job_name: &str) -> Option<JobField>
        ensures { result ≡ field_refusal crew_allowed job_name.now (drafted self.now) }
    {
        self.first_bad()
            .or(self.crew_refusal(crew_allowed))
            .or(self.first_clash(job_name))
    }

    /// The first thing that the job is refused for, where its file has this name.
    pub(crate) fn refusal(&self, crew_allowed: bool, job_name: &str) -> Option<JobRefused>
        ensures { result ≡ refusal_of crew_allowed job_name.now (drafted self.now) }
    {
        if let Some(field) = self.field_refusal(crew_allowed, job_name) {
            return Some(JobRefused::Field(field));
        }
        self.first_limit_past().map(JobRefused::Params)
    }
}

/// Whether the value is this name.
fn is_name_of(value: &Value, name: &str) -> bool
    ensures { result ≡ is_name_of name.now (view value.now) }
{
    match name_in(value) {
        Some(found) => name == found,
        None => false,
    }
}

/// Whether one of the values is this name.
fn is_among(values: &[Value], name: &str) -> bool
    ensures { result ≡ list_any (λ value. is_name_of name.now (view value)) values.now }
{
    values.iter().any(|value| is_name_of(value, name))
}

/// What a number that is past the limits of its row is refused as.
fn param_of(field: JobField) -> Option<ParamField>
    ensures { result ≡ param_of field }
{
    match field.limits() {
        Some(limits) => Some(limits.param),
        None => None,
    }
}
