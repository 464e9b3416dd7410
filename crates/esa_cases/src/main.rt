//! Runs the worked cases of its data over files and a printer in memory, and says of each whether all is as the case says.
//! The external memory of a run is one in memory too, or a file of the machine.
//!
//! The words after the program's name are files of cases in the form of docs/TESTING.md. It prints a line for each case
//! and each difference, and counts at the end. It ends with status 1 if anything differs, a file isn't in the form, or
//! there is no case. It promises nothing but to be safe and to end: that it finds a case that is wrong was tried by
//! hand, kind by kind.
#![tactic(auto)]

mod readers;
mod run;

use anyhow::{Result, ensure};
use esa_case_file::{Case, read_cases};
use run::{DISK, run_case};
use std::fs::File as HostFile;
use std::rt::{Env, Files};
use std::sync::Wait;
use std::thread::Threads;
use std::{env, fs};

/// How many cases were as they say, and how many cases and files weren't.
#[derive(Drop)]
struct Counts {
    ok: u64,
    differ: u64,
}

fn main(rt: HostRuntime) -> Result<()> {
    let mut counts = Counts { ok: 0, differ: 0 };
    for file in env::args(&rt)?.skip(1) {
        run_file(&rt, &mut counts, file.as_str())?;
    }
    let _ = fs::remove_file(&rt, DISK);
    let Counts { ok, differ } = counts;
    println!(rt; "{ok} cases are ok, {differ} differ")?;
    ensure!(differ == 0 && ok > 0, "not every case is as it says");
    Ok(())
}

/// Runs the cases of a file.
fn run_file(
    rt: &(impl Files<File = HostFile> + Print + AllocGlobal + Clone + Drop + Threads + Wait + Sync),
    counts: &mut Counts,
    file: &str,
) -> Result<()> {
    let text = fs::read_to_string(rt, file)?;
    match read_cases(rt.alloc(), text.as_str()) {
        Ok(cases) => {
            for case in &cases {
                let differences = run_case(rt, rt.alloc(), case)?;
                tell(rt, counts, file, case, &differences)?;
            }
        }
        Err(mistake) => {
            counts.differ = counts.differ.saturating_add(1);
            println!(rt; "{file}: line {}: {}", mistake.line, mistake.wrong)?;
        }
    }
    Ok(())
}

/// Counts a case, and prints what differs in it. Of cases that the same lines state, all as they say, only the last has
/// a line.
fn tell(
    rt: &impl Print,
    counts: &mut Counts,
    file: &str,
    case: &Case,
    differences: &[String],
) -> Result<()> {
    let name = case.name.as_str();
    if differences.is_empty() {
        counts.ok = counts.ok.saturating_add(1);
        if !case.followed {
            println!(rt; "{file}: {name}: ok")?;
        }
        return Ok(());
    }
    counts.differ = counts.differ.saturating_add(1);
    for difference in differences {
        println!(rt; "{file}: {name}: {difference}")?;
    }
    Ok(())
}
