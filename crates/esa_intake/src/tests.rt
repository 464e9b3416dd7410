//! A full intake and an empty one, and an envelope for a batcher, on one thread, and an intake between three threads.

ghost use Rattle.std.specs.Prelude.{◌<◌, ◌^◌};
ghost use Rattle.esa_intake.specs.Keeping.{IsSealedOf};
ghost use Rattle.esa_intake.specs.Standing.{IsSender, IsTaker};

use super::*;
use esa_batcher::{AddRefused, Batcher};
use esa_bytes::u32_at;
use esa_line::{LineCause, LineRefused};
use esa_params::Form;
use std::sync::Wait;
use std::test::*;
use std::thread;

/// A submission line of form One whose envelope has the byte of these two digits 176 times.
fn line_of(tens: u8, ones: u8) -> [u8; 356] {
    let mut line = [tens; 356];
    line[..4].copy_from_slice(b"1\tm\t");
    for place in 0..176usize {
        line[5 + 2 * place] = ones;
    }
    line
}

/// An envelope of form One, as it waits.
fn waiting(byte: u8) -> Sealed {
    let mut bytes = [0; 304];
    for place in 0..176usize {
        bytes[place] = byte;
    }
    Sealed { length: 176, bytes }
}

#[test]
fn full_and_empty(rt: HostRuntime) -> Result<(), Fail> {
    let mut stand = Intake::make(rt.alloc(), Form::One, 2, 1)?;
    assert_eq!(rt; stand.intake.take(&rt, &mut stand.taker), None);
    let Some(mut sender) = stand.senders.pop() else {
        return Err(Fail::from("one sender"));
    };
    assert_eq!(rt;
        stand.intake.offer(&rt, &mut sender, b"1\tm\t00", 7),
        Err(OfferRefused::Line(LineRefused {
            line: 7,
            cause: LineCause::BadHex
        }))
    );
    assert_eq!(rt;
        stand
            .intake
            .offer(&rt, &mut sender, &line_of(b'0', b'1'), 8),
        Ok(())
    );
    assert_eq!(rt;
        stand
            .intake
            .offer(&rt, &mut sender, &line_of(b'f', b'2'), 9),
        Ok(())
    );
    assert_eq!(rt;
        stand
            .intake
            .offer(&rt, &mut sender, &line_of(b'0', b'3'), 10),
        Err(OfferRefused::Full)
    );
    assert_eq!(rt;
        stand.intake.take(&rt, &mut stand.taker),
        Some(waiting(0x01))
    );
    stand.senders.push(sender)?;
    let mut rest = [waiting(0); 2];
    let count = stand
        .intake
        .close(&rt, stand.senders, stand.taker, &mut rest);
    assert_eq!(rt; count, 1);
    assert_eq!(rt; rest, [waiting(0xf2), waiting(0)]);
    Ok(())
}

/// Adds an envelope that was taken to a batcher of its form.
fn add_taken(batcher: &mut Batcher, sealed: &Sealed) -> Result<(), AddRefused>
    requires { IsSealedOf batcher.old.form sealed.now }
{
    batcher.put(&sealed.bytes[..sealed.length as usize])
}

#[test]
fn taken_into_a_batcher(rt: HostRuntime) -> Result<(), Fail> {
    let mut stand = Intake::make(rt.alloc(), Form::One, 1, 1)?;
    let Some(mut sender) = stand.senders.pop() else {
        return Err(Fail::from("one sender"));
    };
    assert_eq!(rt;
        stand
            .intake
            .offer(&rt, &mut sender, &line_of(b'0', b'1'), 1),
        Ok(())
    );
    let Some(sealed) = stand.intake.take(&rt, &mut stand.taker) else {
        return Err(Fail::from("one envelope"));
    };
    let mut batcher = Batcher::make(rt.alloc(), Form::One, 1)?;
    assert_eq!(rt; add_taken(&mut batcher, &sealed), Ok(()));
    Ok(())
}

/// How many lines each of the two threads offers.
const LINES: u32 = 1_000;

/// A submission line of form One whose envelope ends with a number.
fn numbered(number: u32) -> [u8; 356] {
    let mut line = line_of(b'0', b'0');
    for place in 0..8u32 {
        let digit = (number >> (28 - 4 * place)) % 16;
        line[348 + place as usize] = if digit < 10 {
            b'0' + digit as u8
        } else {
            b'a' + (digit - 10) as u8
        };
    }
    line
}

/// Offers the lines of these numbers, each until there is room.
fn send<R: Wait>(rt: &R, intake: &Intake, sender: Sender, first: u32)
    requires sender { IsSender intake.now sender }
    requires few { first < 2 ^ 20 }
{
    let mut sender = sender;
    let mut next = 0;
    for _ in rt.forever() {
        if next >= LINES {
            break;
        }
        match intake.offer(rt, &mut sender, &numbered(first + next), 1) {
            Ok(()) => next += 1,
            Err(_) => thread::yield_now(),
        }
    }
}

/// The number of an envelope.
fn number_of(sealed: &Sealed) -> usize {
    u32_at(&sealed.bytes, 172) as usize
}

/// Takes the envelopes of so many lines, and counts how often each number came.
fn receive<R: Wait>(rt: &R, intake: &Intake, taker: Taker) -> [u32; 2_000]
    requires { IsTaker intake.now taker }
{
    let mut taker = taker;
    let mut counts = [0u32; 2_000];
    let mut taken = 0;
    for _ in rt.forever() {
        if taken >= 2 * LINES {
            break;
        }
        match intake.take(rt, &mut taker) {
            Some(sealed) => {
                let number = number_of(&sealed) % 2_000;
                counts[number] = counts[number].wrapping_add(1);
                taken += 1;
            }
            None => thread::yield_now(),
        }
    }
    counts
}

#[test]
fn intake_threads(rt: HostRuntime) -> Result<(), Fail> {
    let Stand {
        intake,
        mut senders,
        taker,
    } = Intake::make(rt.alloc(), Form::One, 4, 2)?;
    let Some(second) = senders.pop() else {
        return Err(Fail::from("two senders"));
    };
    let Some(first) = senders.pop() else {
        return Err(Fail::from("two senders"));
    };
    let intake = &intake;
    let (_, (_, counts)) = thread::join(
        &rt,
        move ||
            requires { IsSender intake.now first }
        { send(&rt, intake, first, 0) },
        move ||
            requires { IsSender intake.now second × IsTaker intake.now taker }
        {
            thread::join(
                &rt,
                move ||
                    requires { IsSender intake.now second }
                { send(&rt, intake, second, LINES) },
                move ||
                    requires { IsTaker intake.now taker }
                { receive(&rt, intake, taker) },
            )
        },
    );
    assert_eq!(rt; counts, [1; 2_000]);
    Ok(())
}
