//! The header and the rows of a database file, spelled and written through a page.

ghost use Rattle.std.specs.Prelude.{◌≡◌, ◌≤◌, ◌++◌, List, ℕ, Option, length, take, OnOk, OnErr};
ghost use Rattle.esa_outside.specs.Files.{Files};
ghost use Rattle.esa_outside.specs.Cause.{HasCause};
ghost use Rattle.esa_outside.specs.Heard.{Event};
ghost use Rattle.esa_page.specs.Underway.{IsUnderway, IsLeft};
ghost use Rattle.esa_page.specs.Writing.{IsWriting, HasBroken};
ghost use Rattle.esa_analyser.specs.Rows.{row_bytes, front_bytes};

use esa_header::version_of;
use esa_outside::{Cabinet, Failed};
use esa_page::Page;
use esa_params::Form;

/// The longest value of a row, in bytes: that of form Two.
pub const LONGEST: usize = 190;

/// The header of a database file.
pub fn front(form: Form, rows: u32, unopened: u32) -> [u8; 13]
    ensures { result ≡ front_bytes form rows unopened }
{
    let [r0, r1, r2, r3] = rows.to_be_bytes();
    let [u0, u1, u2, u3] = unopened.to_be_bytes();
    [
        b'E',
        b'S',
        b'A',
        b'D',
        version_of(form),
        r0,
        r1,
        r2,
        r3,
        u0,
        u1,
        u2,
        u3,
    ]
}

/// Writes a row of a database file to the front of `out` and answers its length, in bytes.
pub fn spell_row(value: &[u8], count: u32, out: &mut [u8]) -> usize
    requires short { length value.now ≤ LONGEST }
    requires room { length out.old ≡ 195 }
    ensures row { take result out.new ≡ row_bytes (value.now, count) }
    ensures number { result ≤ 195 }
{
    let end = 1 + value.len();
    out[0] = value.len() as u8;
    out[1..end].copy_from_slice(value);
    out[end..end + 4].copy_from_slice(&count.to_be_bytes());
    end + 4
}

/// Puts a row behind the bytes that wait in the page.
pub(crate) fn put_row<K: Cabinet>(
    page: &mut Page,
    cabinet: &mut K,
    name: &str,
    value: &[u8],
    count: u32,
) -> Result<(), Failed>
    requires { length value.now ≤ LONGEST }
    ensures added { (before : Option Files) (text : List ℕ)
        → IsUnderway before name.now text page.old (K.told cabinet.old)
        → OnOk result (IsUnderway before name.now (text ++ row_bytes (value.now, count)) page.new (K.told cabinet.new)) }
    ensures failed { (before : Option Files) (text : List ℕ)
        → IsUnderway before name.now text page.old (K.told cabinet.old)
        → OnErr result (IsLeft before name.now text (K.told cabinet.new)) }
    ensures heard { (before : List Event) (text : List ℕ)
        → IsWriting before name.now text page.old (K.heard cabinet.old)
        → OnOk result (IsWriting before name.now (text ++ row_bytes (value.now, count)) page.new (K.heard cabinet.new)) }
    ensures heard_broken { (before : List Event) (text : List ℕ)
        → IsWriting before name.now text page.old (K.heard cabinet.old)
        → OnErr result (HasBroken before name.now text (K.heard cabinet.new)) }
    ensures cause { (before : Option Files) (text : List ℕ)
        → IsUnderway before name.now text page.old (K.told cabinet.old)
        → HasCause (K.faults cabinet.old) (K.faults cabinet.new) ⊥ result }
{
    let mut row = [0; 195];
    let length = spell_row(value, count, &mut row);
    page.put(cabinet, name, &row[..length])
}
