//! Jobs: what a command is asked to do, read from a JSON object.

ghost use Rattle.std.specs.Prelude.{◌≡◌, ◌≤◌, map, option_map};
ghost use Rattle.esa_job.specs.Refusal.{IsAcceptable, params_of};
ghost use Rattle.esa_job.specs.Decoded.{seen, meanings};
ghost use Rattle.esa_job.specs.Values.{form_number};
ghost use Rattle.esa_job.specs.Asked.{asked};

use crate::command::Command;
use crate::decoded::Decoded;
use crate::draft::Draft;
use crate::field::{JobField, Kind};
use crate::value::Mode;
use esa_json::read_object;
use esa_params::{Draw, Form, ParamField, Params, Settings, check};
use serde_json::Value;
use std::alloc::Global;
use std::snapshot::Snapshot;

/// Why a job was refused.
#[derive(Clone, Copy, PartialEq, Eq, Debug)]
pub enum JobRefused {
    /// The first bad field, or the job as a whole where it is no JSON object.
    Field(JobField),
    /// The first number past its limits.
    Params(ParamField),
    /// There was no memory.
    OutOfMemory,
}

/// What a command is asked to do.
#[derive(Drop)]
pub struct Job {
    command: Command,
    /// What the value of each field stands for, in the order of the table.
    decoded: Vec<Option<Decoded>>,
    /// The parameters of a shuffle, as they are stated.
    params: Params,
    /// The object that it was read from, for clauses alone: it has no bytes.
    object: Snapshot<Value>,
    ghost acceptable: { IsAcceptable (asked command object.value) },
    ghost kept: { map (option_map seen) decoded.items ≡ meanings (asked command object.value) },
    ghost stated: { params ≡ params_of (asked command object.value) },
}

impl Job {
    ghost use Rattle.std.specs.String.{string_bytes};
    ghost use Rattle.std.specs.Prelude.{◌⊎◌, IfOk, IfErr, IfSome, IsSome, option_map, slice_get};
    ghost use Rattle.esa_params.specs.Limits.{numbers_of};
    ghost use Rattle.esa_job.specs.Decoded.{meaning_at};
    ghost use Rattle.esa_job.specs.Draft.{drafted};
    ghost use Rattle.esa_job.specs.Refusal.{job_of};
    ghost use Rattle.esa_job.specs.Request.{name_at, number_at, inputs_at, seed_at, draw_at, mode_at};
    ghost use Rattle.esa_job.specs.Seen.{request_of, Needs};
    ghost use Rattle.esa_job.specs.Table.{kind_of, limits_of};

    /// Reads the job of a command from the bytes of its file, of which `job_name` is the name.
    ///
    /// `crew_allowed` says whether the caller can run workers. A job is refused for the first of these that applies:
    /// the file is no JSON object (`Job`); the first field of the table that is missing or ill-typed; handed-in turns
    /// for workers; workers that can't be run; a file to write whose name is taken; the first number past its limits.
    pub fn read(
        alloc: Global,
        command: Command,
        crew_allowed: bool,
        job_name: &str,
        bytes: &[u8],
    ) -> Result<Job, JobRefused>
        ensures ok { IfOk result (λ job. job_of command crew_allowed job_name.now bytes.now ≡ Ok (request_of job)) }
        ensures command { IfOk result (λ job. (request_of job).command ≡ command) }
        ensures err { IfErr result (λ e. (e ≡ JobRefused.OutOfMemory)
            ⊎ (job_of command crew_allowed job_name.now bytes.now ≡ Err e)) }
    {
        let object = match read_object(alloc, bytes) {
            Ok(Some(object)) => object,
            Ok(None) => return Err(JobRefused::Field(JobField::Job)),
            Err(_) => return Err(JobRefused::OutOfMemory),
        };
        let draft = Draft { command, object };
        match draft.refusal(crew_allowed, job_name) {
            Some(refusal) => Err(refusal),
            None => Job::keep(alloc, &draft),
        }
    }

    /// The job of a draft that is not refused.
    fn keep(alloc: Global, draft: &Draft) -> Result<Job, JobRefused>
        requires { IsAcceptable (drafted draft.now) }
        ensures ok { IfOk result (λ job. request_of job ≡ drafted draft.now) }
        ensures err { IfErr result (λ e. e ≡ JobRefused.OutOfMemory) }
    {
        match draft.decode(alloc) {
            Ok(decoded) => Ok(Job {
                command: draft.command,
                decoded,
                params: draft.params(),
                object: Snapshot::of(&draft.object),
            }),
            Err(_) => Err(JobRefused::OutOfMemory),
        }
    }

    /// The command.
    pub fn command(&self) -> Command
        ensures { result ≡ (request_of self.now).command }
    {
        self.command
    }

    // ---- files

    /// The file of keys: 1 to 255 bytes, as the name of each file.
    pub fn keys(&self) -> &str
        requires { Needs self.now JobField.Keys }
        ensures { name_at (request_of self.now) JobField.Keys ≡ Some result.now }
    {
        self.needed_name(JobField::Keys)
    }

    /// The file to read.
    pub fn input(&self) -> &str
        requires { Needs self.now JobField.Input }
        ensures { name_at (request_of self.now) JobField.Input ≡ Some result.now }
    {
        self.needed_name(JobField::Input)
    }

    /// The file to read that stands at this place of the inputs, counted from 0. `None` exactly behind the last of
    /// them. There are 1 to 16 for a command that reads several files.
    pub fn inputs(&self, place: usize) -> Option<&str>
        ensures { option_map (λ name. name.now) result ≡ slice_get (inputs_at (request_of self.now)) place }
    {
        match self.input_names().get(place) {
            Some(name) => Some(name.as_str()),
            None => None,
        }
    }

    /// The file to write.
    pub fn output(&self) -> &str
        requires { Needs self.now JobField.Output }
        ensures { name_at (request_of self.now) JobField.Output ≡ Some result.now }
    {
        self.needed_name(JobField::Output)
    }

    /// The file to write the trace to.
    pub fn trace(&self) -> Option<&str>
        ensures { option_map (λ name. name.now) result ≡ name_at (request_of self.now) JobField.Trace }
    {
        self.name(JobField::Trace)
    }

    /// The file of turns to take.
    pub fn turns(&self) -> Option<&str>
        ensures { option_map (λ name. name.now) result ≡ name_at (request_of self.now) JobField.Turns }
    {
        self.name(JobField::Turns)
    }

    /// The file to write the turns to that were taken.
    pub fn turns_out(&self) -> Option<&str>
        ensures { option_map (λ name. name.now) result ≡ name_at (request_of self.now) JobField.TurnsOut }
    {
        self.name(JobField::TurnsOut)
    }

    /// The file of drops.
    pub fn drops(&self) -> Option<&str>
        ensures { option_map (λ name. name.now) result ≡ name_at (request_of self.now) JobField.Drops }
    {
        self.name(JobField::Drops)
    }

    /// The file of coins.
    pub fn coins(&self) -> Option<&str>
        ensures { option_map (λ name. name.now) result ≡ name_at (request_of self.now) JobField.Coins }
    {
        self.name(JobField::Coins)
    }

    // ---- coins

    /// The seed to draw the coins from. A job for a command that uses coins has a file of coins or a seed, and not
    /// both.
    pub fn seed(&self) -> Option<[u8; 32]>
        ensures { result ≡ seed_at (request_of self.now) }
    {
        match self.decoded(JobField::Seed) {
            Some(Decoded::Seed(seed)) => Some(*seed),
            _ => None,
        }
    }

    /// How the targets are drawn from the seed: each by itself where the job doesn't say.
    pub fn draw(&self) -> Option<Draw>
        ensures { result ≡ draw_at (request_of self.now) }
    {
        match self.decoded(JobField::Draw) {
            Some(Decoded::Draw(draw)) => Some(*draw),
            _ => None,
        }
    }

    // ---- records

    /// The number of records: 1 to 262,144.
    pub fn records(&self) -> u32
        requires { Needs self.now JobField.Records }
        ensures value { number_at (request_of self.now) JobField.Records ≡ Some result }
        ensures limits { (1 ≤ result) × (result ≤ 262144) }
    {
        self.limited_number(JobField::Records)
    }

    /// The number of crowds: 1 to 65,536.
    pub fn crowds(&self) -> u32
        requires { Needs self.now JobField.Crowds }
        ensures value { number_at (request_of self.now) JobField.Crowds ≡ Some result }
        ensures limits { (1 ≤ result) × (result ≤ 65536) }
    {
        self.limited_number(JobField::Crowds)
    }

    /// The number that the generator starts from.
    pub fn number(&self) -> u64
        requires { Needs self.now JobField.Number }
        ensures { number_at (request_of self.now) JobField.Number ≡ Some result }
    {
        self.needed_number(JobField::Number)
    }

    /// The number before the first nonce.
    pub fn nonce_base(&self) -> u64
        requires { Needs self.now JobField.NonceBase }
        ensures { number_at (request_of self.now) JobField.NonceBase ≡ Some result }
    {
        self.needed_number(JobField::NonceBase)
    }

    /// The form of the records: form One where the job doesn't say.
    pub fn form(&self) -> Option<Form>
        ensures { option_map form_number result ≡ number_at (request_of self.now) JobField.Form }
    {
        match self.optional_number(JobField::Form) {
            Some(number) => Some(form_numbered(number)),
            None => None,
        }
    }

    /// The key epoch: 0 where the job doesn't say.
    pub fn epoch(&self) -> Option<u32>
        ensures { result ≡ number_at (request_of self.now) JobField.Epoch }
    {
        self.optional_number(JobField::Epoch)
    }

    /// The number of shares that give a value: 2 to 16. Values are sent whole where the job doesn't say.
    pub fn shares(&self) -> Option<u8>
        ensures value { result ≡ number_at (request_of self.now) JobField.Shares }
        ensures limits { IfSome result (λ shares. (2 ≤ shares) × (shares ≤ 16)) }
    {
        match self.optional_number(JobField::Shares) {
            Some(shares) => Some(shares as u8),
            None => None,
        }
    }

    // ---- the shuffle

    /// The parameters of a shuffle.
    pub fn settings(&self) -> Settings
        requires { Needs self.now JobField.B }
        ensures { result ≡ numbers_of (params_of (request_of self.now)) }
    {
        match check(&self.params) {
            Ok(settings) => settings,
            Err(_) => unreachable!(),
        }
    }

    /// The least number of records of a batch: 1 to 262,144.
    pub fn m(&self) -> u32
        requires { Needs self.now JobField.M }
        ensures value { number_at (request_of self.now) JobField.M ≡ Some result }
        ensures limits { (1 ≤ result) × (result ≤ 262144) }
    {
        self.limited_number(JobField::M)
    }

    /// The least number of reports of a crowd: 1 to 262,144.
    pub fn t(&self) -> u32
        requires { Needs self.now JobField.T }
        ensures value { number_at (request_of self.now) JobField.T ≡ Some result }
        ensures limits { (1 ≤ result) × (result ≤ 262144) }
    {
        self.limited_number(JobField::T)
    }

    /// Who takes the turns.
    pub fn mode(&self) -> Mode
        requires { Needs self.now JobField.Mode }
        ensures { mode_at (request_of self.now) ≡ Some result }
    {
        self.stated_mode().unwrap()
    }

    // ---- what was decoded

    /// What the value of the field stands for.
    fn decoded(&self, field: JobField) -> Option<&Decoded>
        ensures { option_map (λ decoded. seen decoded.now) result ≡ meaning_at (request_of self.now) field }
    {
        match self.decoded.get(field.place()) {
            Some(decoded) => decoded.as_ref(),
            None => None,
        }
    }

    /// The name that the field states.
    fn name(&self, field: JobField) -> Option<&str>
        requires { kind_of field ≡ Kind.Name }
        ensures { option_map (λ name. name.now) result ≡ name_at (request_of self.now) field }
    {
        match self.decoded(field) {
            Some(Decoded::Name(name)) => Some(name.as_str()),
            _ => None,
        }
    }

    /// The number that the field states.
    fn number_at(&self, field: JobField) -> Option<u64>
        requires { kind_of field ≡ Kind.Number }
        ensures { result ≡ number_at (request_of self.now) field }
    {
        match self.decoded(field) {
            Some(Decoded::Number(number)) => Some(*number),
            _ => None,
        }
    }

    /// Who takes the turns, if the job says so.
    fn stated_mode(&self) -> Option<Mode>
        ensures { result ≡ mode_at (request_of self.now) }
    {
        match self.decoded(JobField::Mode) {
            Some(Decoded::Mode(mode)) => Some(*mode),
            _ => None,
        }
    }

    /// The names of the inputs.
    fn input_names(&self) -> &[String]
        ensures { map string_bytes result.now ≡ inputs_at (request_of self.now) }
    {
        match self.decoded(JobField::Inputs) {
            Some(Decoded::Names(names)) => names.as_slice(),
            _ => &[],
        }
    }

    // ---- values that the command needs

    fn needed_name(&self, field: JobField) -> &str
        requires kind { kind_of field ≡ Kind.Name }
        requires needed { Needs self.now field }
        ensures { name_at (request_of self.now) field ≡ Some result.now }
    {
        self.name(field).unwrap()
    }

    fn needed_number(&self, field: JobField) -> u64
        requires kind { kind_of field ≡ Kind.Number }
        requires needed { Needs self.now field }
        ensures { number_at (request_of self.now) field ≡ Some result }
    {
        self.number_at(field).unwrap()
    }

    /// A number within the limits of its row.
    fn limited_number(&self, field: JobField) -> u32
        requires kind { kind_of field ≡ Kind.Number }
        requires needed { Needs self.now field }
        requires limited { IsSome (limits_of field) }
        ensures value { number_at (request_of self.now) field ≡ Some result }
        ensures limits { IfSome (limits_of field) (λ limits. (limits.least ≤ result) × (result ≤ limits.greatest)) }
    {
        self.needed_number(field) as u32
    }

    /// A number within the limits of its row, if it is there.
    fn optional_number(&self, field: JobField) -> Option<u32>
        requires limited { IsSome (limits_of field) }
        ensures value { result ≡ number_at (request_of self.now) field }
        ensures limits { IfSome result (λ number. IfSome (limits_of field) (λ limits. (limits.least ≤ number) × (number ≤ limits.greatest))) }
    {
        match self.number_at(field) {
            Some(number) => Some(number as u32),
            None => None,
        }
    }
}

/// The form that a number stands for.
fn form_numbered(number: u32) -> Form
    requires { (1 ≤ number) × (number ≤ 2) }
    ensures { form_number result ≡ number }
{
    if number == 1 { Form::One } else { Form::Two }
}
