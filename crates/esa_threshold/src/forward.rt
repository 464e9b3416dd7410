//! The forward file.

ghost use Rattle.std.specs.Prelude.{◌≡◌, ◌⊎◌, List, ℕ, take, drop, IfOk, MatchResult};
ghost use Rattle.esa_header.specs.Header.{header_length};
ghost use Rattle.esa_threshold.specs.declared.refused.ForwardRefused.TheVariants.{OutOfMemory};
ghost use Rattle.esa_threshold.specs.Forward.{forward_front, forward_bytes, CanForward, forwarded_as, IsForwardFile, forward_header_in, forward_in};
ghost use Rattle.esa_params.specs.declared.form.Form.{Form};
ghost use Rattle.esa_threshold.specs.declared.envelopes.Forwarded.{Forwarded};

use crate::{Envelopes, ForwardRefused, Forwarded};
use esa_header::{FileKind, Header, put_header, read_header};
use esa_params::{Form, MOST_RECORDS};
use std::alloc::Global;

/// The header of a forward file, or the first test that the file fails.
fn tested_header(bytes: &[u8]) -> Result<Header, ForwardRefused>
    ensures header { result ≡ forward_header_in bytes.now }
    ensures spelled { (forwarded : Forwarded) → forward_in bytes.now ≡ Ok forwarded → IsForwardFile forwarded bytes.now }
{
    let header = read_header(FileKind::Forward, bytes, bytes.len() as u64)?;
    if header.count > MOST_RECORDS {
        return Err(ForwardRefused::TooMany { n: header.count });
    }
    Ok(header)
}

/// What a forward file says, or the first test that it fails.
fn tested_forward(bytes: Vec<u8>) -> Result<Forwarded, ForwardRefused>
    ensures says { MatchResult result (λ forwarded. forward_in bytes.items ≡ Ok forwarded)
        (λ refused. forward_in bytes.items ≡ Err refused) }
    ensures spelled { (forwarded : Forwarded) → forward_in bytes.items ≡ Ok forwarded → IsForwardFile forwarded bytes.items }
{
    let header = tested_header(&bytes)?;
    Ok(Forwarded {
        form: header.form,
        epoch: header.epoch,
        envelopes: Envelopes::behind(bytes, header.length()),
    })
}

/// Reads a forward file, and keeps the file's own bytes, so that it takes no memory. The refusal is the first test that
/// the file fails.
pub fn forward_of(bytes: Vec<u8>) -> Result<Forwarded, ForwardRefused>
    ensures first_refusal { MatchResult result (λ forwarded. forward_in bytes.items ≡ Ok forwarded)
        (λ refused. forward_in bytes.items ≡ Err refused) }

    // What is accepted is the one spelling of what was read.
    ensures spelled { IfOk result (λ forwarded. IsForwardFile forwarded bytes.items) }

    // The file of each list is accepted.
    ensures accepts { (form : Form) (epoch : ℕ) (envelopes : List (List ℕ)) → CanForward form epoch envelopes
        → bytes.items ≡ forward_bytes form epoch envelopes → result ≡ Ok (forwarded_as form epoch envelopes) }
{
    tested_forward(bytes)
}

/// What a copy of a forward file says, or the first test that the file fails.
fn copied_forward(alloc: Global, bytes: &[u8]) -> Result<Forwarded, ForwardRefused>
    ensures { MatchResult result (λ forwarded. forward_in bytes.now ≡ Ok forwarded)
        (λ refused. (refused ≡ OutOfMemory) ⊎ (forward_in bytes.now ≡ Err refused)) }
{
    tested_forward(Vec::from_slice(alloc, bytes)?)
}

/// Reads a forward file. The refusal is the first test that it fails.
pub fn read_forward(alloc: Global, bytes: &[u8]) -> Result<Forwarded, ForwardRefused>
    ensures first_refusal { MatchResult result (λ forwarded. forward_in bytes.now ≡ Ok forwarded)
        (λ refused. (refused ≡ OutOfMemory) ⊎ (forward_in bytes.now ≡ Err refused)) }

    // What is accepted is the one spelling of what was read.
    ensures spelled { IfOk result (λ forwarded. IsForwardFile forwarded bytes.now) }

    // Each such file is accepted, but for want of memory.
    ensures accepts { (form : Form) (epoch : ℕ) (envelopes : List (List ℕ)) → CanForward form epoch envelopes
        → bytes.now ≡ forward_bytes form epoch envelopes
        → MatchResult result (λ forwarded. forwarded ≡ forwarded_as form epoch envelopes) (λ refused. refused ≡ OutOfMemory) }
{
    copied_forward(alloc, bytes)
}

/// Writes the header of a forward file to the front of `out` and answers its length, 11 in form One and
/// 15 in form Two. The bytes behind it stay. In form One the epoch isn't used.
pub fn forward_header(form: Form, epoch: u32, count: u32, out: &mut [u8; 15]) -> usize
    ensures written { take result out.new ≡ forward_front form epoch count }
    ensures behind { drop result out.new ≡ drop result out.old }
    ensures number { result ≡ header_length form }
{
    put_header(FileKind::Forward, &Header { form, epoch, count }, out)
}
