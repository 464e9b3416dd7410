//! Runs the shuffles and replays of its data over a device in memory that fails, flips and forgets as each case says,
//! and compares what is seen of each with what the case says.
//!
//! The words after the program's name are files of cases in the form of docs/TESTING.md. It prints a line for each case
//! and each difference, and counts at the end. It ends with status 1 if anything differs, a file isn't in the form, or
//! there is no case. With the word `measure` it makes one attempt of many records, so that a script can count its
//! instructions. It promises nothing but to be safe and to end.
#![tactic(auto)]

mod batch;
mod compare;
mod floors;
mod measure;
mod odd;
mod perform;
mod replays;
mod seen;
mod setup;

use anyhow::{Result, ensure};
use esa_case_file::{Case, read_cases};
use std::rt::{Env, Files};
use std::{env, fs};

/// How many cases were as they say, and how many cases and files weren't.
#[derive(Drop)]
struct Counts {
    ok: u64,
    differ: u64,
}

fn main(rt: HostRuntime) -> Result<()> {
    let mut words = Vec::new(rt.alloc());
    for word in env::args(&rt)?.skip(1) {
        words.push(word)?;
    }
    if let [first, rest @ ..] = words.as_slice() {
        if first.as_str() == "measure" {
            return measure::measure(&rt, rest);
        }
    }
    run_files(&rt, &words)
}

/// Runs the cases of files.
fn run_files(rt: &(impl Files + Print + AllocGlobal), files: &[String]) -> Result<()> {
    let mut counts = Counts { ok: 0, differ: 0 };
    for file in files {
        run_file(rt, &mut counts, file.as_str())?;
    }
    let Counts { ok, differ } = counts;
    println!(rt; "{ok} cases are ok, {differ} differ")?;
    ensure!(differ == 0 && ok > 0, "not every case is as it says");
    Ok(())
}

/// Runs the cases of a file.
fn run_file(
    rt: &(impl Files + Print + AllocGlobal),
    counts: &mut Counts,
    file: &str,
) -> Result<()> {
    let text = fs::read_to_string(rt, file)?;
    match read_cases(rt.alloc(), text.as_str()) {
        Ok(cases) => {
            for case in &cases {
                tell(rt, counts, file, case)?;
            }
        }
        Err(mistake) => {
            counts.differ = counts.differ.saturating_add(1);
            println!(rt; "{file}: line {}: {}", mistake.line, mistake.wrong)?;
        }
    }
    Ok(())
}

/// Runs a case, counts it, and prints what differs in it.
fn tell(
    rt: &(impl Print + AllocGlobal),
    counts: &mut Counts,
    file: &str,
    case: &Case,
) -> Result<()> {
    let name = case.name.as_str();
    for run in &case.runs {
        let printed = perform::perform(rt.alloc(), case, run)?;
        let seen = compare::differing_line(printed.as_bytes(), &run.printed);
        if let Some((has, wants)) = seen {
            counts.differ = counts.differ.saturating_add(1);
            println!(rt; "{file}: {name}: has \"{has}\" and not \"{wants}\"")?;
            return Ok(());
        }
    }
    counts.ok = counts.ok.saturating_add(1);
    println!(rt; "{file}: {name}: ok")?;
    Ok(())
}
