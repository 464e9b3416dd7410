//! A value's spelling in a report.

ghost use Rattle.std.specs.Prelude.{◌≡◌, ℕ, ◌+◌, ◌^◌, ◌<◌, ◌≤◌, ◌↔◌, List, length, replicate, slice_index, Some, IsErr, IfErr, IfOk, IfSome, IfNone};
ghost use Rattle.std.specs.Option.{option_copied};
ghost use Rattle.esa_report.specs.Report.{IsReport, IsReportLength, report_of, value_in};

use crate::zero::is_zero;
use esa_bytes::{put_u16, u16_at};

/// The length of the field that says how long a value is, in bytes.
const LENGTH: usize = 2;

/// A value is longer than its report has room for.
#[derive(Clone, Copy, PartialEq, Eq, Debug)]
pub struct TooLong {
    /// The value's length, in bytes.
    pub length: u64,
}

/// The report of a value, of 64 or 192 bytes: the value's length in two bytes, highest first, the
/// value, and zero bytes. Refuses exactly a value of more than `P - 2` bytes.
pub fn code<const P: usize>(value: &[u8]) -> Result<[u8; P], TooLong>
    requires { IsReportLength P }
    ensures spelled { IfOk result (λ report. report ≡ report_of P value.now) }
    ensures refused { IsErr result ↔ (P < length value.now + 2) }
    ensures too_long { IfErr result (λ refusal. refusal ≡ record { length = length value.now }) }
    ensures reads_back { IfOk result (λ report. value_in report ≡ Some value.now) }
{
    if value.len() > P - LENGTH {
        return Err(TooLong {
            length: value.len() as u64,
        });
    }
    let mut report = [0; P];
    spell(value, &mut report);
    Ok(report)
}

/// The value that a report of 64 or 192 bytes spells. None exactly where it spells none: where the
/// length passes `P - 2`, or a byte behind the value isn't zero.
pub fn value_of<const P: usize>(report: &[u8; P]) -> Option<&[u8]>
    requires { IsReportLength P }
    ensures value { option_copied result ≡ value_in report.now }
    ensures found { IfSome result (λ value. IsReport report.now value.now) }
    ensures none { IfNone result ((value : List ℕ) → IsReport report.now value → ⊥) }
{
    spelled(report)
}

/// Writes a value's report over zero bytes.
fn spell(value: &[u8], report: &mut [u8])
    requires fits { length value.now + 2 ≤ length report.old }
    requires small { length value.now < 2 ^ 16 }
    requires zero { report.old ≡ replicate (length report.old) 0 }
    ensures { report.new ≡ report_of (length report.old) value.now }
{
    put_u16(report, 0, value.len() as u16);
    report[LENGTH..LENGTH + value.len()].copy_from_slice(value);
}

/// The value that a report spells.
#[tactic(auto, unfolding(crate::specs::Report::value_in))]
fn spelled(report: &[u8]) -> Option<&[u8]>
    requires { 2 ≤ length report.now }
    ensures value { option_copied result ≡ value_in report.now }
    ensures bytes { (i : ℕ) → slice_index report.now i < 256 }
{
    let end = LENGTH + u16_at(report, 0) as usize;
    if end > report.len() {
        return None;
    }
    if !is_zero(&report[end..]) {
        return None;
    }
    Some(&report[LENGTH..end])
}
