//! The calls of the machine's cabinet and printer, each through its trait.

use crate::{Cabinet, Failed, HostCabinet, HostPrinter, Printer};
use std::fs;
use std::process::Abort;
use std::test::Fail;

/// A call of a cabinet.
#[derive(Clone, Copy)]
enum Call {
    Length(&'static str),
    ReadAt(&'static str, u64),
    Start(&'static str),
    Append(&'static str, &'static [u8]),
}

/// Makes a call, and answers whether it was done. A read takes two bytes.
fn is_done<K: Cabinet>(cabinet: &mut K, call: Call, two: &mut [u8; 2]) -> bool {
    match call {
        Call::Length(name) => cabinet.length(name).is_ok(),
        Call::ReadAt(name, at) => cabinet.read_at(name, at, two).is_ok(),
        Call::Start(name) => cabinet.start(name).is_ok(),
        Call::Append(name, bytes) => cabinet.append(name, bytes).is_ok(),
    }
}

/// Makes the calls of a table.
fn run<K: Cabinet>(
    rt: &impl Abort,
    cabinet: &mut K,
    calls: &[(Call, bool, u64)],
    two: &mut [u8; 2],
) {
    for (place, row) in calls.iter().enumerate() {
        let (call, done, faults) = *row;
        assert_eq!(rt; is_done(cabinet, call, two), done, "call {place}");
        assert_eq!(rt; cabinet.faults(), faults, "call {place}");
    }
}

/// Prints a line, and answers whether it was done.
fn is_printed<P: Printer>(printer: &mut P, text: &[u8]) -> bool {
    printer.line(text).is_ok()
}

/// A file in the folder that the tests run in.
const NAME: &str = "esa-outside-test";

/// Each row has the call, whether it is done, and the faults after it.
const MACHINE: [(Call, bool, u64); 9] = [
    (Call::Start(NAME), true, 0),
    (Call::Length(NAME), true, 0),
    (Call::ReadAt(NAME, 0), false, 1),
    (Call::Append(NAME, b"xyz"), true, 1),
    (Call::Start(NAME), true, 1),
    (Call::Append(NAME, b"abc"), true, 1),
    (Call::Append(NAME, b"d"), true, 1),
    (Call::ReadAt(NAME, 3), false, 2),
    (Call::ReadAt(NAME, 2), true, 2),
];

#[test]
fn files_of_the_machine(rt: HostRuntime) -> Result<(), Fail> {
    let mut cabinet = HostCabinet::make(rt.clone()?);
    let mut two = [0u8; 2];
    run(&rt, &mut cabinet, &MACHINE, &mut two);
    assert_eq!(rt; two.as_slice(), b"cd".as_slice());
    assert_eq!(rt; cabinet.length(NAME), Ok(4));
    fs::remove_file(&rt, NAME)?;
    assert_eq!(rt; cabinet.length(NAME), Err(Failed));
    Ok(())
}

#[test]
fn standard_output(rt: HostRuntime) -> Result<(), Fail> {
    let mut printer = HostPrinter::make(rt.clone()?);
    assert!(rt; is_printed(&mut printer, b"a line of the test of HostPrinter"));
    assert_eq!(rt; printer.faults(), 0);
    Ok(())
}
