//! The header of a file of sealed records.

ghost use Rattle.std.specs.Prelude.{◌≡◌, ◌≤◌, length, take, drop, min, IfOk};
ghost use Rattle.esa_header.specs.Header.{magic, record_length, header_length, front_bytes, header_bytes, header_in, form_by_front, IsFileOf};
ghost use Rattle.esa_header.specs.declared.header.Header.{Header};

use crate::{form_of, version_of};
use esa_bytes::{Cut, put_u16, put_u32, u16_at, u32_at};
use esa_params::Form;

/// What the records of a file are.
#[derive(Clone, Copy, PartialEq, Eq, Debug)]
pub enum FileKind {
    /// A batch: outer envelopes.
    Batch,
    /// What a shuffler forwards: inner envelopes.
    Forward,
}

impl FileKind {
    /// The four bytes with which a file of this kind begins.
    pub fn magic(&self) -> [u8; 4]
        ensures { result ≡ magic self.now }
    {
        match self {
            FileKind::Batch => *b"ESAB",
            FileKind::Forward => *b"ESAF",
        }
    }

    /// The length of a record, in bytes.
    pub fn record(&self, form: Form) -> u32
        ensures { result ≡ record_length self.now form }
    {
        match self {
            FileKind::Batch => form.envelope(),
            FileKind::Forward => form.inner(),
        }
    }
}

/// What the header of a file says.
#[derive(Clone, Copy, PartialEq, Eq, Debug)]
pub struct Header {
    /// The form of the records, which the version gives.
    pub form: Form,
    /// The key epoch of the records. It is 0 in version 1, which has no epoch.
    pub epoch: u32,
    /// The number of records.
    pub count: u32,
}

impl Header {
    /// The length of the header, in bytes: 11 in version 1 and 15 in version 2.
    pub fn length(&self) -> usize
        ensures { result ≡ header_length self.now.form }
    {
        header_length(self.form) as usize
    }
}

/// The first test that a file of records fails, in this order.
#[derive(Clone, Copy, PartialEq, Eq, Debug)]
pub enum HeaderRefused {
    /// The file ends before its header does, or before its last record does.
    Cut(Cut),
    /// The file begins with other bytes than those of its kind. It is tested once 11 bytes are there.
    BadMagic,
    /// The version is neither 1 nor 2.
    BadVersion,
    /// The size of a record is another than that of the version.
    BadSize,
    /// The file goes on behind its last record.
    Trailing,
}

/// The length of a header, in bytes: 11 in version 1 and 15 in version 2.
pub fn header_length(form: Form) -> u32
    ensures { result ≡ header_length form }
{
    match form {
        Form::One => 11,
        Form::Two => 15,
    }
}

/// The form that the version gives, where the first tests pass.
fn read_form(kind: FileKind, front: &[u8], have: u64) -> Result<Form, HeaderRefused>
    requires { min 15 have ≤ length front.now }
    ensures { result ≡ form_by_front kind front.now have }
{
    if have < 11 {
        return Err(HeaderRefused::Cut(Cut { want: 11, have }));
    }
    if !front.starts_with(&kind.magic()) {
        return Err(HeaderRefused::BadMagic);
    }
    match form_of(front[4]) {
        Some(form) => Ok(form),
        None => Err(HeaderRefused::BadVersion),
    }
}

/// The header of a file of `have` bytes, or the first test that it fails.
fn tested_header(kind: FileKind, front: &[u8], have: u64) -> Result<Header, HeaderRefused>
    requires { min 15 have ≤ length front.now }
    ensures { result ≡ header_in kind front.now have }
{
    let form = read_form(kind, front, have)?;
    let start = u64::from(header_length(form));
    if have < start {
        return Err(HeaderRefused::Cut(Cut { want: start, have }));
    }
    let record = kind.record(form);
    if u32::from(u16_at(front, 9)) != record {
        return Err(HeaderRefused::BadSize);
    }
    let epoch = match form {
        Form::One => 0,
        Form::Two => u32_at(front, 11),
    };
    let count = u32_at(front, 5);
    let want = start + u64::from(record) * u64::from(count);
    if have < want {
        return Err(HeaderRefused::Cut(Cut { want, have }));
    }
    if want < have {
        return Err(HeaderRefused::Trailing);
    }
    Ok(Header { form, epoch, count })
}

/// The header of a file of `have` bytes, of which `front` has the first 15, or all where they are fewer.
///
/// The refusal is the first test that the file fails.
pub fn read_header(kind: FileKind, front: &[u8], have: u64) -> Result<Header, HeaderRefused>
    requires { min 15 have ≤ length front.now }
    ensures first_refusal { result ≡ header_in kind front.now have }

    // Of a whole file: it is accepted exactly where its front is a header, and its length fits the header.
    ensures spelled { have ≡ length front.now → IfOk result (λ header. IsFileOf kind header front.now) }
    ensures accepts { (header : Header) → have ≡ length front.now → IsFileOf kind header front.now → result ≡ Ok header }
{
    tested_header(kind, front, have)
}

/// Writes the magic, the version, the number of records and the length of a record: 11 bytes.
fn put_front(kind: FileKind, header: &Header, out: &mut [u8])
    requires { length out.old ≡ 15 }
    ensures written { take 11 out.new ≡ front_bytes kind header.now }
    ensures behind { drop 11 out.new ≡ drop 11 out.old }
{
    out[..4].copy_from_slice(&kind.magic());
    out[4] = version_of(header.form);
    put_u32(out, 5, header.count);
    put_u16(out, 9, kind.record(header.form) as u16);
}

/// Writes a header to the front of `out` and answers its length, 11 or 15. The bytes behind it stay.
///
/// The header of version 1 has no epoch.
pub fn put_header(kind: FileKind, header: &Header, out: &mut [u8; 15]) -> usize
    ensures written { take result out.new ≡ header_bytes kind header.now }
    ensures behind { drop result out.new ≡ drop result out.old }
    ensures number { result ≡ header_length header.now.form }
{
    put_front(kind, header, out);
    match header.form {
        Form::One => 11,
        Form::Two => {
            put_u32(out, 11, header.epoch);
            15
        }
    }
}
