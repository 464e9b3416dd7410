//! The files and the printer that a case asks for.

ghost use Rattle.std.specs.Prelude.{◌≡◌, [], IfOk, OnOk};
ghost use Rattle.std.specs.FinMap as map;
ghost use Rattle.esa_case_parts.specs.Laid.{laid};

use esa_case_file::{Case, File};
use esa_outside::{MemCabinet, MemPrinter};
use std::alloc::{AllocError, Global};

/// A cabinet with the files before the first call, whose calls fail that the case lists.
pub fn cabinet_for(alloc: Global, case: &Case) -> Result<MemCabinet, AllocError>
    ensures files { IfOk result (λ cabinet. cabinet.files ≡ laid map.empty case.now.files.items) }
    ensures calls { IfOk result (λ cabinet. cabinet.calls ≡ record { fails = case.now.cabinet_fails.items; made = 0; faults = 0; starved = 0 }) }
    ensures heard { IfOk result (λ cabinet. cabinet.heard ≡ []) }
{
    let fails = Vec::from_slice(alloc, &case.cabinet_fails)?;
    let mut cabinet = MemCabinet::make(Vec::new(alloc), fails);
    put_all(&mut cabinet, &case.files)?;
    Ok(cabinet)
}

/// A printer that has printed nothing, whose calls fail that the case lists.
pub fn printer_for(alloc: Global, case: &Case) -> Result<MemPrinter, AllocError>
    ensures printed { IfOk result (λ printer. printer.printed ≡ []) }
    ensures calls { IfOk result (λ printer. printer.calls ≡ record { fails = case.now.printer_fails.items; made = 0; faults = 0; starved = 0 }) }
    ensures heard { IfOk result (λ printer. printer.heard ≡ []) }
{
    let fails = Vec::from_slice(alloc, &case.printer_fails)?;
    Ok(MemPrinter::make(fails))
}

/// A cabinet with the files that the calls of a case must leave.
pub fn cabinet_after(alloc: Global, case: &Case) -> Result<MemCabinet, AllocError>
    ensures { IfOk result (λ cabinet. cabinet.files ≡ laid (laid map.empty case.now.files.items) case.now.left.items) }
{
    let mut cabinet = MemCabinet::make(Vec::new(alloc), Vec::new(alloc));
    put_all(&mut cabinet, &case.files)?;
    put_all(&mut cabinet, &case.left)?;
    Ok(cabinet)
}

/// Puts files into a cabinet, the later ones in the place of earlier ones of their name.
fn put_all(cabinet: &mut MemCabinet, files: &[File]) -> Result<(), AllocError>
    ensures files { OnOk result (cabinet.new.files ≡ laid cabinet.old.files files.now) }
    ensures calls { cabinet.new.calls ≡ cabinet.old.calls }
    ensures heard { cabinet.new.heard ≡ cabinet.old.heard }
{
    for file in files {
        cabinet.put(file.name.as_str(), &file.bytes)?;
    }
    Ok(())
}
