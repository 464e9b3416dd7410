//! What differs between what calls came to and what a case says.

ghost use Rattle.std.specs.Prelude.{◌≡◌, ◌≤◌, suc, OnOk, IfNone, IfSome, length};
ghost use Rattle.std.specs.FinMap as map;
ghost use Rattle.esa_case_parts.specs.Judged.{Judged, AreSame};
ghost use Rattle.esa_case_parts.specs.Laid.{laid};

use crate::compare::{difference, difference_of_bytes};
use crate::outside::cabinet_after;
use esa_case_file::{Case, Run};
use esa_outside::MemCabinet;
use std::alloc::{AllocError, Global};

/// Adds what differs in a call's status and in what it printed. The call is the case's one at this place, from 0 on.
pub fn judge_run(
    alloc: Global,
    differences: &mut Vec<String>,
    place: usize,
    run: &Run,
    status: u8,
    printed: &[u8],
) -> Result<(), AllocError>
    ensures { OnOk result (Judged (length differences.old.items) (length differences.new.items) (status ≡ run.now.status × printed.now ≡ run.now.printed.items)) }
{
    let number = place.saturating_add(1);
    judge_status(alloc, differences, number, run.status, status)?;
    let what = format!(in alloc; "what run {number} printed")?;
    add(
        differences,
        difference_of_bytes(alloc, what.as_str(), printed, &run.printed)?,
    )
}

/// Adds that a call's status isn't the one that the case says.
fn judge_status(
    alloc: Global,
    differences: &mut Vec<String>,
    number: usize,
    wants: u8,
    status: u8,
) -> Result<(), AllocError>
    ensures { OnOk result (Judged (length differences.old.items) (length differences.new.items) (status ≡ wants)) }
{
    if status != wants {
        differences.push(format!(in alloc;
            "run {number} ended with status {status} and not {wants}"
        )?)?;
    }
    Ok(())
}

/// Adds what differs in the files, be they wanted or there. Where all are as the case says, nothing is added.
pub fn judge_files(
    alloc: Global,
    differences: &mut Vec<String>,
    case: &Case,
    cabinet: &MemCabinet,
) -> Result<(), AllocError>
    ensures kept { OnOk result (length differences.old.items ≤ length differences.new.items) }
    ensures same { AreSame cabinet.now.files (laid (laid map.empty case.now.files.items) case.now.left.items)
        → OnOk result (length differences.new.items ≡ length differences.old.items) }
{
    let wanted = cabinet_after(alloc, case)?;
    judge_present(alloc, differences, cabinet, &wanted)?;
    judge_absent(alloc, differences, cabinet, &wanted)
}

/// Adds what differs in the files that are there.
fn judge_present(
    alloc: Global,
    differences: &mut Vec<String>,
    cabinet: &MemCabinet,
    wanted: &MemCabinet,
) -> Result<(), AllocError>
    ensures kept { OnOk result (length differences.old.items ≤ length differences.new.items) }
    ensures same { AreSame cabinet.now.files wanted.now.files → OnOk result (length differences.new.items ≡ length differences.old.items) }
{
    for (name, _) in cabinet.files() {
        judge_file(alloc, differences, name.as_str(), cabinet, wanted)?;
    }
    Ok(())
}

/// Adds which wanted files aren't there.
fn judge_absent(
    alloc: Global,
    differences: &mut Vec<String>,
    cabinet: &MemCabinet,
    wanted: &MemCabinet,
) -> Result<(), AllocError>
    ensures kept { OnOk result (length differences.old.items ≤ length differences.new.items) }
    ensures same { AreSame cabinet.now.files wanted.now.files → OnOk result (length differences.new.items ≡ length differences.old.items) }
{
    for (name, _) in wanted.files() {
        let name = name.as_str();
        if cabinet.file(name).is_none() {
            judge_file(alloc, differences, name, cabinet, wanted)?;
        }
    }
    Ok(())
}

/// Adds what differs in one file.
fn judge_file(
    alloc: Global,
    differences: &mut Vec<String>,
    name: &str,
    cabinet: &MemCabinet,
    wanted: &MemCabinet,
) -> Result<(), AllocError>
    ensures { OnOk result (Judged (length differences.old.items) (length differences.new.items) (map.get cabinet.now.files name.now ≡ map.get wanted.now.files name.now)) }
{
    add(
        differences,
        difference(alloc, name, cabinet.file(name), wanted.file(name))?,
    )
}

/// Adds a difference, if there is one.
fn add(differences: &mut Vec<String>, found: Option<String>) -> Result<(), AllocError>
    ensures none { IfNone found (OnOk result (length differences.new.items ≡ length differences.old.items)) }
    ensures some { IfSome found (λ _. OnOk result (length differences.new.items ≡ suc (length differences.old.items))) }
{
    if let Some(found) = found {
        differences.push(found)?;
    }
    Ok(())
}
