//! A plan: settings for a batch of a given size and form, with the sizes that follow.

ghost use Rattle.std.specs.Prelude.{◌≡◌, ◌+◌, ◌^◌, ◌<◌, ◌≤◌};
ghost use Rattle.esa_params.specs.Sizes.{Sizes, ArePlanned, sizes_of, share, first, size};
ghost use Rattle.esa_params.specs.declared.slot.Slot.{Slot};
ghost use Rattle.esa_params.specs.Slots.{IsPlanned, number_of, slots_of, slot_at, block_length, length_at, offset_at, nonce_of, access_of, greatest_trace, start, item_length};

use crate::form::Form;
use crate::params::Settings;
use crate::slot::{Access, Op, Region, Slot};
use std::marker::Model;

/// The sizes of one shuffle.
///
/// With N records and B buckets, bucket b holds the places from `min(N, b * D)` up to but not including
/// `min(N, (b + 1) * D)`, where D is N over B, rounded up. Late buckets may be short or empty.
#[derive(Clone, Copy, PartialEq, Eq, Debug)]
pub struct Plan {
    n: u32,
    b: u32,
    c: u32,
    s: u32,
    k: u32,
    w: u32,
    q: u32,
    workers: u32,
    attempts: u32,
    form: Form,
}

impl Model for Plan {
    ghost Value = { Sizes };

    ghost view = { λ a. record { n = a.n; b = a.b; c = a.c; s = a.s; k = a.k; w = a.w; q = a.q; workers = a.workers; attempts = a.attempts; form = a.form } };

    ghost invariant = { λ a. ArePlanned (record { n = a.n; b = a.b; c = a.c; s = a.s; k = a.k; w = a.w; q = a.q; workers = a.workers; attempts = a.attempts; form = a.form }) };

    ghost inverse = { λ p. record { n = p.n; b = p.b; c = p.c; s = p.s; k = p.k; w = p.w; q = p.q; workers = p.workers; attempts = p.attempts; form = p.form } };
}

impl Plan {
    /// The plan of a batch of `n` records of a form.
    pub fn of(settings: Settings, n: u32, form: Form) -> Plan
        requires some { 1 ≤ n }
        requires few { n ≤ 262144 }
        ensures { result ≡ sizes_of settings n form }
    {
        Plan {
            n,
            b: settings.b(),
            c: settings.c(),
            s: settings.s(),
            k: settings.k(),
            w: settings.w(),
            q: settings.q(),
            workers: settings.workers(),
            attempts: settings.attempts(),
            form,
        }
    }

    /// The number of records.
    pub fn n(&self) -> u32
        ensures value { result ≡ self.now.n }
        ensures limits { ArePlanned self.now }
    {
        self.n
    }

    /// The number of buckets.
    pub fn b(&self) -> u32
        ensures value { result ≡ self.now.b }
        ensures limits { ArePlanned self.now }
    {
        self.b
    }

    /// The items of a chunk.
    pub fn c(&self) -> u32
        ensures value { result ≡ self.now.c }
        ensures limits { ArePlanned self.now }
    {
        self.c
    }

    /// The items that the stash holds at most.
    pub fn s(&self) -> u32
        ensures value { result ≡ self.now.s }
        ensures limits { ArePlanned self.now }
    {
        self.s
    }

    /// The items of a tail.
    pub fn k(&self) -> u32
        ensures value { result ≡ self.now.k }
        ensures limits { ArePlanned self.now }
    {
        self.k
    }

    /// How many buckets the window runs ahead.
    pub fn w(&self) -> u32
        ensures value { result ≡ self.now.w }
        ensures limits { ArePlanned self.now }
    {
        self.w
    }

    /// The items that the window's queue holds at most.
    pub fn q(&self) -> u32
        ensures value { result ≡ self.now.q }
        ensures limits { ArePlanned self.now }
    {
        self.q
    }

    /// The number of workers.
    pub fn workers(&self) -> u32
        ensures value { result ≡ self.now.workers }
        ensures limits { ArePlanned self.now }
    {
        self.workers
    }

    /// The number of attempts.
    pub fn attempts(&self) -> u32
        ensures value { result ≡ self.now.attempts }
        ensures limits { ArePlanned self.now }
    {
        self.attempts
    }

    /// The form of the records.
    pub fn form(&self) -> Form
        ensures value { result ≡ self.now.form }
        ensures limits { ArePlanned self.now }
    {
        self.form
    }

    /// The first place of a bucket.
    pub fn first(&self, b: u32) -> u32
        requires { b < self.now.b }
        ensures { result ≡ first self.now b }
    {
        self.n.min(b * self.share())
    }

    /// The number of places of a bucket, and of the items of the output bucket of this number.
    pub fn size(&self, b: u32) -> u32
        requires { b < self.now.b }
        ensures { result ≡ size self.now b }
    {
        self.n.min((b + 1) * self.share()) - self.first(b)
    }

    /// The places of a bucket that is full.
    fn share(&self) -> u32
        ensures value { result ≡ share self.now }
        ensures limits { ArePlanned self.now }
    {
        (self.n + self.b - 1) / self.b
    }

    /// The number of slots.
    pub fn slots(&self) -> u32
        ensures { result ≡ slots_of self.now }
    {
        3 * self.b + self.b * self.b
    }

    /// The number of a slot. The blocks of `Input` are numbered first, then those of `Mid`, `Tail` and `Output`.
    pub fn number(&self, slot: Slot) -> u32
        requires { IsPlanned self.now slot }
        ensures value { result ≡ number_of self.now slot }
        ensures planned { result < slots_of self.now }
        ensures one_slot { slot_at self.now result ≡ slot }
    {
        self.start(slot.region) + slot.index
    }

    /// The slot that has a number.
    pub fn slot(&self, number: u32) -> Slot
        requires { number < slots_of self.now }
        ensures value { result ≡ slot_at self.now number }
        ensures planned { IsPlanned self.now result }
        ensures one_number { number_of self.now result ≡ number }
    {
        let region = self.region(number);
        Slot {
            region,
            index: number - self.start(region),
        }
    }

    /// The length in bytes of the block of a slot.
    pub fn block_length(&self, slot: Slot) -> u32
        requires { IsPlanned self.now slot }
        ensures { result ≡ block_length self.now slot }
    {
        let plain = match slot.region {
            Region::Input => self.form.envelope() * self.size(slot.index),
            Region::Mid => self.item() * self.c,
            Region::Tail => self.item() * self.k,
            Region::Output => self.item() * self.size(slot.index),
        };
        plain + 40
    }

    /// The length in bytes of the block that has a number.
    pub fn length(&self, number: u32) -> u32
        requires { number < slots_of self.now }
        ensures { result ≡ length_at self.now number }
    {
        self.block_length(self.slot(number))
    }

    /// Where the block that has a number begins, in bytes, where the blocks lie one after another by their numbers.
    pub fn offset(&self, number: u32) -> u64
        requires { number < slots_of self.now }
        ensures { result ≡ offset_at self.now number }
    {
        let slot = self.slot(number);
        self.region_offset(slot.region) + self.offset_inside(slot)
    }

    /// The length in bytes of the longest block.
    #[tactic(auto, using(crate::proofs::Offsets::longest))]
    pub fn greatest_block(&self) -> u32
        ensures bound { (slot : Slot) → IsPlanned self.now slot → block_length self.now slot ≤ result }
        ensures reached { (slot : Slot) × IsPlanned self.now slot × (block_length self.now slot ≡ result) }
    {
        let input = self.form.envelope() * self.size(0);
        input.max(self.item() * self.c.max(self.k)) + 40
    }

    /// The nonce of a slot in an attempt: the attempt times 2^32, plus the slot's number. A block of `Input` is written
    /// once, and has the nonce of attempt 0 in each attempt.
    pub fn nonce(&self, attempt: u32, slot: Slot) -> u64
        requires { IsPlanned self.now slot }
        ensures { result ≡ nonce_of self.now attempt slot }
    {
        let number = u64::from(self.number(slot));
        match slot.region {
            Region::Input => number,
            _ => u64::from(attempt) * (1 << 32) + number,
        }
    }

    /// The access to a slot in an attempt.
    pub fn access(&self, attempt: u32, op: Op, slot: Slot) -> Access
        requires { IsPlanned self.now slot }
        ensures { result ≡ access_of self.now attempt op slot }
    {
        Access {
            op,
            region: slot.region,
            index: slot.index,
            length: self.block_length(slot),
            nonce: self.nonce(attempt, slot),
            attempt,
        }
    }

    /// The most accesses that a shuffle of the plan makes: `3B + attempts * (2 * B * B + 4B)`.
    pub fn greatest_trace(&self) -> u32
        ensures { result ≡ greatest_trace self.now }
    {
        3 * self.b + self.attempts * (2 * self.b * self.b + 4 * self.b)
    }

    /// The region of the block that has a number.
    fn region(&self, number: u32) -> Region
        ensures { result ≡ (slot_at self.now number).region }
    {
        if number < self.start(Region::Mid) {
            Region::Input
        } else if number < self.start(Region::Tail) {
            Region::Mid
        } else if number < self.start(Region::Output) {
            Region::Tail
        } else {
            Region::Output
        }
    }

    /// The number of the first block of a region.
    fn start(&self, region: Region) -> u32
        ensures value { result ≡ start self.now region }
        ensures limits { ArePlanned self.now }
    {
        match region {
            Region::Input => 0,
            Region::Mid => self.b,
            Region::Tail => self.b + self.b * self.b,
            Region::Output => 2 * self.b + self.b * self.b,
        }
    }

    /// The length of an item: its kind in one byte, and the body.
    fn item(&self) -> u32
        ensures { result ≡ item_length self.now.form }
    {
        self.form.body() + 1
    }

    /// Where a region begins, in bytes.
    #[tactic(auto, using(crate::proofs::Offsets::regions))]
    fn region_offset(&self, region: Region) -> u64
        ensures value { result ≡ offset_at self.now (start self.now region) }
        ensures small { result < 2 ^ 62 }
    {
        let item = u64::from(self.item());
        let b = u64::from(self.b);
        let mid = u64::from(self.form.envelope()) * u64::from(self.n) + 40 * b;
        let tail = mid + b * b * (item * u64::from(self.c) + 40);
        match region {
            Region::Input => 0,
            Region::Mid => mid,
            Region::Tail => tail,
            Region::Output => tail + b * (item * u64::from(self.k) + 40),
        }
    }

    /// The lengths of the blocks before a slot in its region, together.
    #[tactic(auto, using(crate::proofs::Offsets::insides))]
    fn offset_inside(&self, slot: Slot) -> u64
        requires { IsPlanned self.now slot }
        ensures value { offset_at self.now (start self.now slot.region) + result ≡ offset_at self.now (number_of self.now slot) }
        ensures small { result < 2 ^ 62 }
    {
        let item = u64::from(self.item());
        let index = u64::from(slot.index);
        match slot.region {
            Region::Input => u64::from(self.form.envelope()) * u64::from(self.first(slot.index))
                + 40 * index,
            Region::Mid => index * (item * u64::from(self.c) + 40),
            Region::Tail => index * (item * u64::from(self.k) + 40),
            Region::Output => item * u64::from(self.first(slot.index)) + 40 * index,
        }
    }
}
