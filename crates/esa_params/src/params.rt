//! The parameters of a shuffle, and their limits.

ghost use Rattle.std.specs.Prelude.{◌≡◌, IfOk, IfErr};
ghost use Rattle.esa_params.specs.Limits.{is_from, first_past, numbers_of};

use crate::field::ParamField;
use crate::limits::{
    MOST_ATTEMPTS, MOST_BUCKETS, MOST_IN_THE_MIDDLE, MOST_OF_A_CHUNK, MOST_OF_A_TAIL,
    MOST_OF_THE_QUEUE, MOST_OF_THE_STASH, MOST_WORKERS,
};
use std::marker::Model;

/// The parameters of a shuffle as a job states them.
#[derive(Clone, Copy, PartialEq, Eq, Debug)]
pub struct Params {
    /// The number of buckets: 1 to 256.
    pub b: u64,
    /// The items of a chunk: 1 to 1,024.
    pub c: u64,
    /// The items that the stash holds at most: 0 to 262,144.
    pub s: u64,
    /// The items of a tail: 0 to 4,096.
    pub k: u64,
    /// How many buckets the window runs ahead: 1 to `b`.
    pub w: u64,
    /// The items that the window's queue holds at most: 1 to 1,048,576.
    pub q: u64,
    /// The number of workers: 1 to 16.
    pub workers: u64,
    /// The number of attempts: 1 to 16.
    pub attempts: u64,
}

impl Params {
    /// The first of b, c, s, k, w, q, mid, workers and attempts that is past its limits.
    fn first_past(&self) -> Option<ParamField>
        ensures { result ≡ first_past self.now }
    {
        if !is_from(self.b, 1, MOST_BUCKETS) {
            Some(ParamField::B)
        } else if !is_from(self.c, 1, MOST_OF_A_CHUNK) {
            Some(ParamField::C)
        } else if !is_from(self.s, 0, MOST_OF_THE_STASH) {
            Some(ParamField::S)
        } else if !is_from(self.k, 0, MOST_OF_A_TAIL) {
            Some(ParamField::K)
        } else if !is_from(self.w, 1, self.b) {
            Some(ParamField::W)
        } else if !is_from(self.q, 1, MOST_OF_THE_QUEUE) {
            Some(ParamField::Q)
        } else if !is_from(self.b * (self.b * self.c + self.k), 0, MOST_IN_THE_MIDDLE) {
            Some(ParamField::Mid)
        } else if !is_from(self.workers, 1, MOST_WORKERS) {
            Some(ParamField::Workers)
        } else if !is_from(self.attempts, 1, MOST_ATTEMPTS) {
            Some(ParamField::Attempts)
        } else {
            None
        }
    }
}

/// Parameters that keep their limits.
#[derive(Clone, Copy, PartialEq, Eq, Debug)]
pub struct Settings {
    b: u32,
    c: u32,
    s: u32,
    k: u32,
    w: u32,
    q: u32,
    workers: u32,
    attempts: u32,
}

impl Model for Settings {
    ghost use Rattle.esa_params.specs.Numbers.{Numbers, KeepsLimits};

    ghost Value = { Numbers };

    ghost view = { λ a. record { b = a.b; c = a.c; s = a.s; k = a.k; w = a.w; q = a.q; workers = a.workers; attempts = a.attempts } };

    ghost invariant = { λ a. KeepsLimits (record { b = a.b; c = a.c; s = a.s; k = a.k; w = a.w; q = a.q; workers = a.workers; attempts = a.attempts }) };

    ghost inverse = { λ n. record { b = n.b; c = n.c; s = n.s; k = n.k; w = n.w; q = n.q; workers = n.workers; attempts = n.attempts } };
}

impl Settings {
    ghost use Rattle.esa_params.specs.Numbers.{KeepsLimits};

    /// The number of buckets.
    pub fn b(&self) -> u32
        ensures value { result ≡ self.now.b }
        ensures limits { KeepsLimits self.now }
    {
        self.b
    }

    /// The items of a chunk.
    pub fn c(&self) -> u32
        ensures value { result ≡ self.now.c }
        ensures limits { KeepsLimits self.now }
    {
        self.c
    }

    /// The items that the stash holds at most.
    pub fn s(&self) -> u32
        ensures value { result ≡ self.now.s }
        ensures limits { KeepsLimits self.now }
    {
        self.s
    }

    /// The items of a tail.
    pub fn k(&self) -> u32
        ensures value { result ≡ self.now.k }
        ensures limits { KeepsLimits self.now }
    {
        self.k
    }

    /// How many buckets the window runs ahead.
    pub fn w(&self) -> u32
        ensures value { result ≡ self.now.w }
        ensures limits { KeepsLimits self.now }
    {
        self.w
    }

    /// The items that the window's queue holds at most.
    pub fn q(&self) -> u32
        ensures value { result ≡ self.now.q }
        ensures limits { KeepsLimits self.now }
    {
        self.q
    }

    /// The number of workers.
    pub fn workers(&self) -> u32
        ensures value { result ≡ self.now.workers }
        ensures limits { KeepsLimits self.now }
    {
        self.workers
    }

    /// The number of attempts.
    pub fn attempts(&self) -> u32
        ensures value { result ≡ self.now.attempts }
        ensures limits { KeepsLimits self.now }
    {
        self.attempts
    }
}

/// The parameter that is past its limits, and the first one of those in the order of `ParamField`.
#[derive(Clone, Copy, PartialEq, Eq, Debug)]
pub struct ParamsRefused(pub ParamField);

/// The parameters as settings, unless one of them is past its limits.
///
/// Besides the limits of each parameter, the chunks and the tails of a shuffle, which are `b * (b * c + k)` items
/// together, are at most 4,194,304. They are looked at between `q` and `workers`.
pub fn check(params: &Params) -> Result<Settings, ParamsRefused>
    ensures refused { IfErr result (λ e. first_past params.now ≡ Some e.0) }
    ensures kept { IfOk result (λ _. first_past params.now ≡ None) }
    ensures value { IfOk result (λ settings. settings ≡ numbers_of params.now) }
{
    match params.first_past() {
        Some(field) => Err(ParamsRefused(field)),
        None => Ok(Settings {
            b: params.b as u32,
            c: params.c as u32,
            s: params.s as u32,
            k: params.k as u32,
            w: params.w as u32,
            q: params.q as u32,
            workers: params.workers as u32,
            attempts: params.attempts as u32,
        }),
    }
}

/// A number is from a least to a greatest one.
fn is_from(number: u64, least: u64, greatest: u64) -> bool
    ensures { result ≡ is_from number least greatest }
{
    least <= number && number <= greatest
}
