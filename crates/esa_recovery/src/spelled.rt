//! The bytes of a database file, in memory.

ghost use Rattle.std.specs.Prelude.{◌≡◌, ◌≤◌, ◌<◌, ◌^◌, ◌++◌, All, length, IfOk, OnOk};
ghost use Rattle.esa_analyser.specs.Rows.{database_bytes, row_bytes};
ghost use Rattle.esa_recovery.specs.Sums.{plain};

use crate::sums::Sum;
use esa_analyser::{front, spell_row};
use esa_params::Form;
use std::alloc::{AllocError, Global};

/// Puts a row behind the bytes.
fn put_row(bytes: &mut Vec<u8>, value: &[u8], count: u32) -> Result<(), AllocError>
    requires { length value.now ≤ 190 }
    ensures { OnOk result (bytes.new.items ≡ bytes.old.items ++ row_bytes (value.now, count)) }
{
    let mut row = [0; 195];
    let length = spell_row(value, count, &mut row);
    bytes.extend_from_slice(&row[..length])
}

/// The file of the database of values with their counts.
pub(crate) fn spelled(
    alloc: Global,
    form: Form,
    sums: &[Sum<'_>],
    unopened: u32,
) -> Result<Vec<u8>, AllocError>
    requires short { All (λ row. length row.0 ≤ 190) (plain sums.now) }
    requires few { length sums.now < 2 ^ 32 }
    ensures { IfOk result (λ bytes. bytes.items ≡ database_bytes form (record { rows = plain sums.now; unopened = unopened })) }
{
    let mut bytes = Vec::from_slice(alloc, &front(form, sums.len() as u32, unopened))?;
    for sum in sums {
        put_row(&mut bytes, sum.value, sum.count)?;
    }
    Ok(bytes)
}
