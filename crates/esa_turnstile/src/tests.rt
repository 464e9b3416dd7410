ghost use Rattle.std.specs.Prelude.{◌≡◌, ◌*◌, ◌<◌, ◌≤◌, ℕ, IfOk, length, slice_index_or, All};
ghost use Rattle.esa_turnstile.specs.Rolls.{room_in};
ghost use Rattle.esa_turnstile.specs.Passes.{passes_of, tickets_of, opened_of, left_of, IsPassOf, IsOutside, IsNewPass};

use crate::{Logged, Opened, Pass, Roll, Turnstile, go_round, go_rounds, two_workers, workers};
use std::alloc::{AllocError, Global};
use std::process::Abort;
use std::test::Fail;
use std::thread;

fn open(alloc: Global, passes: u32, tickets: u64) -> Result<Opened<Roll>, AllocError>
    requires { (0 < passes) × (passes * tickets < 100000) }
    ensures turnstile { IfOk result (λ o. (passes_of o.turnstile ≡ passes) × (tickets_of o.turnstile ≡ tickets) × (passes * tickets ≤ room_in (opened_of o.turnstile))) }
    ensures count { IfOk result (λ o. length o.passes.items ≡ passes) }
    ensures passes { IfOk result (λ o. All (λ p. IsPassOf o.turnstile p × IsNewPass tickets 0 p) o.passes.items) }
{
    let roll = Roll::make(alloc, passes as usize * tickets as usize)?;
    match Turnstile::make(alloc, roll, passes, tickets) {
        Ok(opened) => Ok(opened),
        Err(_) => Err(AllocError),
    }
}

fn count(roll: &Roll, number: u32) -> usize {
    roll.entries().iter().filter(|x| **x == number).count()
}

/// The value, which may go to another thread.
fn sent<T: Send>(value: T) -> T
    ensures { result ≡ value }
{
    value
}

/// The value, which threads may share.
fn shared<T: Sync>(value: T) -> T
    ensures { result ≡ value }
{
    value
}

/// Whatever the value is: threads share its turnstile and take its passes along, where it may go from one to another.
fn crossed<T: Logged + Send>(turnstile: Turnstile<T>, pass: Pass<T>) -> (Turnstile<T>, Pass<T>)
    ensures { result ≡ (turnstile, pass) }
{
    (shared(turnstile), sent(pass))
}

#[test]
fn two_threads_on_a_turnstile(rt: HostRuntime) -> Result<(), Fail> {
    let roll = two_workers(&rt, rt.alloc(), 1000)?;
    assert_eq!(rt; roll.entries().len(), 2000);
    assert_eq!(rt; count(&roll, 0), 1000);
    assert_eq!(rt; count(&roll, 1), 1000);
    Ok(())
}

fn eight_enter<R: thread::Threads + std::sync::Wait + Sync + Abort>(
    rt: &R,
    alloc: Global,
    turns: u64,
) -> Result<(), Fail>
    requires { turns < 1000 }
{
    let roll = workers(rt, alloc, 8, turns)?;
    assert!(rt; roll.entries().len() == 8 * turns as usize);
    for number in 0..8 {
        assert!(rt; count(&roll, number) == turns as usize);
    }
    Ok(())
}

#[test]
fn eight_threads_use_up_their_tickets(rt: HostRuntime) -> Result<(), Fail> {
    eight_enter(&rt, rt.alloc(), 1)?;
    eight_enter(&rt, rt.alloc(), 7)?;
    eight_enter(&rt, rt.alloc(), 250)
}

#[test]
fn one_pass_alone(rt: HostRuntime) -> Result<(), Fail> {
    let Opened {
        turnstile,
        mut passes,
    } = open(rt.alloc(), 1, 3)?;
    let Some(pass) = passes.pop() else {
        return Err(Fail::from("one pass"));
    };
    let (turnstile, mut pass) = crossed(turnstile, pass);
    go_rounds(&rt, &turnstile, &mut pass, 3);
    passes.push_reserved(pass);
    let roll = turnstile.close(passes);
    assert!(rt; roll.entries() == [0, 0, 0].as_slice());
    Ok(())
}

#[test]
fn passes_that_meet(rt: HostRuntime) -> Result<(), Fail> {
    let Opened {
        turnstile,
        mut passes,
    } = open(rt.alloc(), 3, 2)?;
    let (Some(mut owner), Some(mut two), Some(mut one)) = (passes.pop(), passes.pop(), passes.pop())
    else {
        return Err(Fail::from("three passes"));
    };
    go_round(&rt, &turnstile, &mut owner);
    turnstile.meet(&mut owner, &mut one);
    turnstile.meet(&mut owner, &mut two);
    go_round(&rt, &turnstile, &mut two);
    go_round(&rt, &turnstile, &mut one);
    turnstile.meet(&mut one, &mut owner);
    turnstile.meet(&mut two, &mut owner);
    go_round(&rt, &turnstile, &mut owner);
    passes.push_reserved(owner);
    passes.push_reserved(one);
    passes.push_reserved(two);
    let roll = turnstile.close(passes);
    assert!(rt; roll.entries() == [2, 1, 0, 2].as_slice());
    Ok(())
}

/// Each pass enters, in a thread of its own, ten times more than the one before it.
fn more_rounds_each<R: thread::Threads + std::sync::Wait + Sync>(
    rt: &R,
    turnstile: &Turnstile<Roll>,
    passes: &mut [Pass<Roll>],
)
    requires few { length passes.old ≤ 8 }
    requires passes { All (λ p. IsPassOf turnstile.now p × IsOutside p × (80 ≤ left_of p)) passes.old }
    requires room { passes_of turnstile.now * tickets_of turnstile.now ≤ room_in (opened_of turnstile.now) }
    ensures { (k : ℕ) (d : _) → k < length passes.old
        → IsPassOf turnstile.now (slice_index_or passes.new k d) × IsOutside (slice_index_or passes.new k d) }
{
    thread::for_each_mut(
        rt,
        passes,
        8,
        &|place, pass| { go_rounds(rt, turnstile, pass, 10 * (place as u64 + 1)) },
    );
}

#[test]
fn eight_threads_with_different_numbers_of_turns(rt: HostRuntime) -> Result<(), Fail> {
    let Opened {
        turnstile,
        mut passes,
    } = open(rt.alloc(), 8, 80)?;
    more_rounds_each(&rt, &turnstile, passes.as_mut_slice());
    let roll = turnstile.close(passes);
    assert!(rt; roll.entries().len() == 360);
    for number in 0..8u32 {
        assert!(rt; count(&roll, number) == 10 * (number as usize + 1));
    }
    Ok(())
}

#[test]
fn closes_with_passes_in_another_order(rt: HostRuntime) -> Result<(), Fail> {
    let Opened {
        turnstile,
        mut passes,
    } = open(rt.alloc(), 2, 1)?;
    go_round(&rt, &turnstile, &mut passes[1]);
    go_round(&rt, &turnstile, &mut passes[0]);
    passes.as_mut_slice().swap(0, 1);
    let roll = turnstile.close(passes);
    assert!(rt; roll.entries() == [1, 0].as_slice());
    Ok(())
}
