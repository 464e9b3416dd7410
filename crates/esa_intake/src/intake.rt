//! The intake, its senders and its taker.

ghost use Rattle.std.specs.Prelude.{◌≡◌, ◌+◌, ◌<◌, ◌≤◌, ◌++◌, ◌∷◌, [], None, All, IfOk, IfSome, OnOk, MatchOption, length, map, take, if◌then◌else◌};
ghost use Rattle.std.specs.List.Sorted.{IsPermutation};
ghost use Rattle.std.specs.Bool.{OnFalse};
ghost use Rattle.esa_intake.specs.Keeping.{IsSealedOf};
ghost use Rattle.esa_intake.specs.Standing.{form_of, room_of, IsSender, IsTaker, IsEarlyTaker, number_of, put_of, senders_of, taken_of, closed_of, closed_of_taker, IsFull, IsMade, AreNew, AreAll, HasWaited, WaitedNone, KeepsEach, KeepsOrder, AllBack, TakerRest};

use crate::hand::{GivenBack, Hand, Line, NewSenderOfOne, NewSenderOfTwo, Puts, Takes};
use crate::sealed::Sealed;
use crossbeam_queue::Pass;
use esa_params::Form;
use std::alloc::{AllocError, Global};
use std::sync::Wait;

/// Envelopes of one form, between those who send them and the one who takes them.
#[derive(Drop)]
pub struct Intake {
    form: Form,
    room: u32,
    pub(crate) line: Line,
}

/// The right to put. One thread at a time has it.
#[derive(Drop)]
pub struct Sender {
    pub(crate) pass: Pass<Sealed, Hand>,
}

/// The right to take. One thread at a time has it.
#[derive(Drop)]
pub struct Taker {
    pub(crate) pass: Pass<Sealed, Hand>,
}

/// A new intake, with its senders and its taker.
#[derive(Drop)]
pub struct Stand {
    pub intake: Intake,
    pub senders: Vec<Sender>,
    pub taker: Taker,
}

impl Intake {
    /// An intake of the form with so many senders, in which so many envelopes can wait.
    pub fn make(alloc: Global, form: Form, room: u32, senders: u32) -> Result<Stand, AllocError>
        requires room { 0 < room }
        requires senders { 0 < senders }
        ensures { IfOk result (IsMade form room senders) }
    {
        let (line, pass) = Line::ruled(alloc, room as usize)?;
        let intake = Intake { form, room, line };
        let mut taker = Taker { pass };
        let senders = intake.make_senders(alloc, &mut taker, senders)?;
        Ok(Stand {
            intake,
            senders,
            taker,
        })
    }

    /// Makes the senders, counted from 1.
    fn make_senders(
        &self,
        alloc: Global,
        taker: &mut Taker,
        number: u32,
    ) -> Result<Vec<Sender>, AllocError>
        requires some { 0 < number }
        requires taker { IsEarlyTaker self.now taker.old }
        requires none { senders_of taker.old ≡ 0 }
        ensures senders { IfOk result (λ senders. AreNew self.now number senders.items) }
        ensures taker { OnOk result (IsTaker self.now taker.new × (senders_of taker.new ≡ number) × (taken_of taker.new ≡ taken_of taker.old)) }
    {
        let mut senders = Vec::with_capacity(alloc, number as usize)?;
        for _ in 0..number {
            senders.push_reserved(self.sender(taker));
        }
        Ok(senders)
    }

    /// The form of the envelopes.
    pub fn form(&self) -> Form
        ensures { result ≡ form_of self.now }
    {
        self.form
    }

    /// Makes one more sender.
    fn sender(&self, taker: &mut Taker) -> Sender
        requires { IsEarlyTaker self.now taker.old }
        ensures sender { IsSender self.now result × (number_of result ≡ senders_of taker.old + 1) × (put_of result ≡ []) }
        ensures taker { IsEarlyTaker self.now taker.new × (senders_of taker.new ≡ senders_of taker.old + 1) × (taken_of taker.new ≡ taken_of taker.old) }
    {
        let pass = match self.form {
            Form::One => self.line.another::<NewSenderOfOne>(&mut taker.pass),
            Form::Two => self.line.another::<NewSenderOfTwo>(&mut taker.pass),
        };
        Sender { pass }
    }

    /// Puts an envelope. False only where at a moment of this call as many waited as there is room for.
    pub(crate) fn put<R: Wait>(&self, rt: &R, sender: &mut Sender, sealed: Sealed) -> bool
        requires sender { IsSender self.now sender.old }
        requires form { IsSealedOf (form_of self.now) sealed }
        ensures sender { IsSender self.now sender.new × (number_of sender.new ≡ number_of sender.old) }
        ensures put { put_of sender.new ≡ (if result then put_of sender.old ++ sealed ∷ [] else put_of sender.old) }
        ensures full { OnFalse result (HasWaited (room_of self.now) sender.old) }
    {
        self.line
            .push_as::<Puts, R>(rt, &mut sender.pass, sealed)
            .is_ok()
    }

    /// Takes the envelope that has waited longest. None only where at a moment of this call none waited.
    pub fn take<R: Wait>(&self, rt: &R, taker: &mut Taker) -> Option<Sealed>
        requires { IsTaker self.now taker.old }
        ensures taker { IsTaker self.now taker.new × (senders_of taker.new ≡ senders_of taker.old) }
        ensures taken { MatchOption result (taken_of taker.new ≡ taken_of taker.old) (λ sealed. taken_of taker.new ≡ taken_of taker.old ++ sealed ∷ []) }
        ensures form { IfSome result (IsSealedOf (form_of self.now)) }
        ensures empty { result ≡ None → WaitedNone taker.old }
    {
        self.line.pop_as::<Takes, R>(rt, &mut taker.pass)
    }

    /// Gives the senders' passes back to the taker's.
    fn give_back(&self, taker: &mut Taker, senders: Vec<Sender>)
        requires senders { All (IsSender self.now) senders.items }
        requires taker { IsTaker self.now taker.old }
        ensures taker { AllBack self.now taker.old taker.new }
        ensures closed { IsPermutation (closed_of_taker taker.new) (map closed_of senders.items) }
    {
        let mut left = senders;
        while let Some(sender) = left.pop() {
            self.line.absorb::<GivenBack>(&mut taker.pass, sender.pass);
        }
    }

    /// Takes what waits, when every sender was given back.
    fn drain<R: Wait>(&self, rt: &R, taker: &mut Taker, rest: &mut [Sealed]) -> usize
        requires taker { IsFull self.now taker.old }
        requires room { room_of self.now ≤ length rest.old }
        ensures inside { result ≤ length rest.new }
        ensures rest { TakerRest taker.old (take result rest.new) }
    {
        self.line.len_as::<Takes, R>(rt, &mut taker.pass);
        for place in 0..rest.len() {
            match self.line.pop_as::<Takes, R>(rt, &mut taker.pass) {
                Some(sealed) => rest[place] = sealed,
                None => return place,
            }
        }
        self.line.learn_as::<Takes>(&mut taker.pass);
        rest.len()
    }

    /// Takes all passes back, moves what still waits to the front of `rest`, and answers how many envelopes that are.
    pub fn close<R: Wait>(
        self,
        rt: &R,
        senders: Vec<Sender>,
        taker: Taker,
        rest: &mut [Sealed],
    ) -> usize
        requires senders { All (IsSender self) senders.items }
        requires all { AreAll taker senders.items }
        requires taker { IsTaker self taker }
        requires room { room_of self ≤ length rest.old }
        ensures inside { result ≤ length rest.new }

        // What was taken and what is left is what was put, each envelope as often.
        ensures each { KeepsEach senders.items (taken_of taker ++ take result rest.new) }

        // It is of the form.
        ensures form { All (IsSealedOf (form_of self)) (taken_of taker ++ take result rest.new) }

        // And that of each sender is in its order.
        ensures order { KeepsOrder senders.items (taken_of taker ++ take result rest.new) }
    {
        let mut taker = taker;
        self.give_back(&mut taker, senders);
        self.drain(rt, &mut taker, rest)
    }
}
