//! The fields of a line of reports: moment, sender, crowd and value.

ghost use Rattle.std.specs.Prelude.{◌≡◌, ◌<◌, ◌↔◌, None, Some, IsNone, IfSome, MatchResult};
ghost use Rattle.esa_line.specs.Line.{tabs};
ghost use Rattle.esa_encoder.specs.Report.{fields_cause, sent_cause, report_cause, IsReportLine};
ghost use Rattle.esa_encoder.specs.Encoded.{sent_of};
ghost use Rattle.esa_encoder.specs.Shaped.{IsShaped};

use crate::Shaper;
use esa_line::{Head, LineCause, head_cause, head_in, tab_place};
use esa_params::Form;

/// Where the fields of a line of reports stand.
#[derive(Clone, Copy)]
pub struct ReportLine {
    /// The moment and the sender.
    pub head: Head,
    /// The place behind the crowd's last byte: that of the third tab. The value stands behind it.
    pub crowd_end: usize,
}

/// The fields of a line. `None` exactly where it has fewer than three tabs.
fn fields_in(line: &[u8]) -> Option<ReportLine>
    ensures none { IsNone result ↔ (tabs line.now < 3) }
    ensures place { IfSome result (IsReportLine line.now) }
{
    let head = head_in(line)?;
    let crowd = tab_place(&line[head.length..])?;
    Some(ReportLine {
        crowd_end: head.length + crowd,
        head,
    })
}

/// A line of reports, and the length of what is sent in place of its value.
#[derive(Clone, Copy)]
pub struct SentLine {
    /// Where the fields stand.
    pub fields: ReportLine,
    /// The number of bytes that are sent.
    pub length: usize,
}

/// The fields of a line of reports, or the first cause for which they are refused.
fn tested_fields(line: &[u8]) -> Result<ReportLine, LineCause>
    ensures { MatchResult result
        (λ fields. (fields_cause line.now ≡ None) × IsReportLine line.now fields)
        (λ cause. fields_cause line.now ≡ Some cause) }
{
    let Some(fields) = fields_in(line) else {
        return Err(LineCause::MissingField);
    };
    if let Some(cause) = head_cause(line, &fields.head) {
        return Err(cause);
    }
    Ok(fields)
}

/// Writes what is sent in place of a value, or the cause for which the value is refused.
fn send<H: Shaper>(
    form: Form,
    value: &[u8],
    nonce: u64,
    shaper: &H,
    sent: &mut [u8; 190],
) -> Result<usize, LineCause>
    ensures { MatchResult result
        (λ n. (sent_cause form (H.shape shaper.now value.now nonce) ≡ None) × IsShaped (H.shape shaper.now value.now nonce) n sent.new)
        (λ cause. sent_cause form (H.shape shaper.now value.now nonce) ≡ Some cause) }
{
    let Some(length) = shaper.shape(value, nonce, sent) else {
        return Err(LineCause::TooLong);
    };
    if (form.report() as usize) < 2 + length {
        return Err(LineCause::TooLong);
    }
    Ok(length)
}

/// The fields of a line of reports of a form, with what is sent in place of its value, or the first cause for which the
/// line is refused.
pub(crate) fn report_in<H: Shaper>(
    form: Form,
    line: &[u8],
    nonce: u64,
    shaper: &H,
    sent: &mut [u8; 190],
) -> Result<SentLine, LineCause>
    ensures { MatchResult result
        (λ l. (report_cause form (sent_of (H.shape shaper.now) nonce line.now) line.now ≡ None) × IsReportLine line.now l.fields
        × IsShaped (sent_of (H.shape shaper.now) nonce line.now) l.length sent.new)
        (λ cause. report_cause form (sent_of (H.shape shaper.now) nonce line.now) line.now ≡ Some cause) }
{
    let fields = tested_fields(line)?;
    let length = send(form, &line[fields.crowd_end + 1..], nonce, shaper, sent)?;
    Ok(SentLine { fields, length })
}
