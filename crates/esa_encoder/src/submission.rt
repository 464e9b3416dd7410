//! Lines of reports become lines of submissions.

ghost use Rattle.std.specs.Prelude.{◌≡◌, ◌⊎◌, ◌*◌, ◌++◌, ◌∷◌, [], Ok, Err, Some, None, length, take, option_map, IfOk, IfErr, OnOk, OnErr, MatchResult};
ghost use Rattle.hex.specs.Hex.{encode_lower};
ghost use Rattle.esa_bytes.specs.Lines.{text_lines};
ghost use Rattle.esa_params.specs.Form.{envelope_length};
ghost use Rattle.esa_encoder.specs.declared.submission.EncodeRefused.TheVariants as refusal;
ghost use Rattle.esa_line.specs.Line.{head_of};
ghost use Rattle.esa_encoder.specs.Encoded.{nonce_of, envelope_of, submission_of, submissions, line_refused, first_refused, encoded, encoded_by};
ghost use Rattle.esa_encoder.specs.Report.{itself};

use crate::report::report_in;
use crate::seal::{put_hex, seal_report};
use crate::shape::{Itself, ROOM, Shaper};
use esa_bytes::{line_count, split_line};
use esa_envelope::{Keys, Prepared, prepare};
use esa_line::LineRefused;
use esa_params::{Form, MOST_RECORDS};
use std::alloc::{AllocError, Global};

/// The length of the longest outer envelope, in bytes: that of form Two.
const ENVELOPE: usize = 304;

/// The hexadecimal digits of the longest outer envelope.
const DIGITS: usize = 608;

/// What of a line goes into its submission as it is.
#[derive(Clone, Copy, PartialEq, Eq, Debug)]
pub struct Meta {
    /// The number of bytes of moment, tab, sender and tab at the line's front.
    pub head: usize,
}

/// Why reports were not encoded.
#[derive(Clone, Copy, PartialEq, Eq, Debug)]
pub enum EncodeRefused {
    /// The first refused line.
    Line(LineRefused),
    /// There are more than 262,144 lines.
    TooMany {
        /// Their number.
        n: u64,
    },
    /// There was no memory.
    OutOfMemory,
}

impl From<LineRefused> for EncodeRefused {
    ghost from_gives = { λ refused e. e ≡ refusal.Line refused };

    fn from(refused: LineRefused) -> EncodeRefused {
        EncodeRefused::Line(refused)
    }
}

impl From<AllocError> for EncodeRefused {
    ghost from_gives = { λ _ e. e ≡ refusal.OutOfMemory };

    fn from(_: AllocError) -> EncodeRefused {
        EncodeRefused::OutOfMemory
    }
}

/// Seals the report of a line, of which `number` is the number in its file, and writes the outer envelope in
/// hexadecimal digits of lower case: 352 of them in form One, 608 in form Two. Both envelopes have this nonce, which the
/// caller uses for one line under the same keys. A line is refused for its first cause. It takes no memory.
pub fn encode_line(
    form: Form,
    line: &[u8],
    number: u64,
    outer: &Keys,
    inner: &Keys,
    nonce: u64,
    out: &mut [u8],
) -> Result<Meta, LineRefused>
    requires { length out.old ≡ 2 * envelope_length form }
    ensures refusal { MatchResult result
        (λ meta. line_refused itself form number nonce line.now ≡ None) (λ refused. line_refused itself form number nonce line.now ≡ Some refused) }
    ensures digits { OnOk result (out.new ≡ encode_lower (envelope_of itself form outer.now inner.now nonce line.now)) }
    ensures head { IfOk result (λ meta. meta.head ≡ length (head_of line.now)) }
    ensures front { IfOk result (λ meta. take meta.head line.now ≡ head_of line.now) }
    ensures same { OnErr result (out.new ≡ out.old) }
{
    encode_line_with(
        form,
        line,
        number,
        &prepare(outer),
        &prepare(inner),
        nonce,
        out,
    )
}

/// Seals as [`encode_line`] does, under keys that were prepared.
pub fn encode_line_with(
    form: Form,
    line: &[u8],
    number: u64,
    outer: &Prepared,
    inner: &Prepared,
    nonce: u64,
    out: &mut [u8],
) -> Result<Meta, LineRefused>
    requires { length out.old ≡ 2 * envelope_length form }
    ensures refusal { MatchResult result
        (λ meta. line_refused itself form number nonce line.now ≡ None) (λ refused. line_refused itself form number nonce line.now ≡ Some refused) }
    ensures digits { OnOk result (out.new ≡ encode_lower (envelope_of itself form outer.now inner.now nonce line.now)) }
    ensures head { IfOk result (λ meta. meta.head ≡ length (head_of line.now)) }
    ensures front { IfOk result (λ meta. take meta.head line.now ≡ head_of line.now) }
    ensures same { OnErr result (out.new ≡ out.old) }
{
    shape_line(form, line, number, outer, inner, nonce, &Itself, out)
}

/// Seals as [`encode_line_with`] does, with what is sent in place of the value.
fn shape_line<H: Shaper>(
    form: Form,
    line: &[u8],
    number: u64,
    outer: &Prepared,
    inner: &Prepared,
    nonce: u64,
    shaper: &H,
    out: &mut [u8],
) -> Result<Meta, LineRefused>
    requires { length out.old ≡ 2 * envelope_length form }
    ensures refusal { MatchResult result
        (λ meta. line_refused (H.shape shaper.now) form number nonce line.now ≡ None) (λ refused. line_refused (H.shape shaper.now) form number nonce line.now ≡ Some refused) }
    ensures digits { OnOk result (out.new ≡ encode_lower (envelope_of (H.shape shaper.now) form outer.now inner.now nonce line.now)) }
    ensures head { IfOk result (λ meta. meta.head ≡ length (head_of line.now)) }
    ensures front { IfOk result (λ meta. take meta.head line.now ≡ head_of line.now) }
    ensures same { OnErr result (out.new ≡ out.old) }
{
    let mut sent = [0; ROOM];
    let shaped = match report_in(form, line, nonce, shaper, &mut sent) {
        Ok(shaped) => shaped,
        Err(cause) => return Err(LineRefused {
            line: number,
            cause,
        }),
    };
    let fields = shaped.fields;
    let crowd = &line[fields.head.length..fields.crowd_end];
    let end = form.envelope() as usize;
    let mut sealed = [0; ENVELOPE];
    seal_report(
        form,
        outer,
        inner,
        nonce,
        crowd,
        &sent[..shaped.length],
        &mut sealed[..end],
    );
    put_hex(&sealed[..end], out);
    Ok(Meta {
        head: fields.head.length,
    })
}

/// Adds the two parts of a line, and a newline.
fn add_parts(out: &mut Vec<u8>, head: &[u8], digits: &[u8]) -> Result<(), AllocError>
    ensures { OnOk result (out.new.items ≡ out.old.items ++ ((head.now ++ digits.now) ++ 10 ∷ [])) }
{
    out.extend_from_slice(head)?;
    out.extend_from_slice(digits)?;
    out.push(b'\n')?;
    Ok(())
}

/// Adds the submission of a line, with its newline.
fn add_line<H: Shaper>(
    out: &mut Vec<u8>,
    form: Form,
    line: &[u8],
    number: u64,
    outer: &Prepared,
    inner: &Prepared,
    base: u64,
    shaper: &H,
) -> Result<(), EncodeRefused>
    ensures added { OnOk result (out.new.items
        ≡ out.old.items ++ (submission_of (H.shape shaper.now) form outer.now inner.now (nonce_of base number) line.now ++ 10 ∷ [])) }
    ensures accepted { OnOk result (line_refused (H.shape shaper.now) form number (nonce_of base number) line.now ≡ None) }
    ensures refused { IfErr result (λ e. (e ≡ refusal.OutOfMemory)
        ⊎ (option_map refusal.Line (line_refused (H.shape shaper.now) form number (nonce_of base number) line.now) ≡ Some e)) }
{
    let mut digits = [0; DIGITS];
    let end = 2 * form.envelope() as usize;
    let nonce = base.wrapping_add(number);
    let meta = shape_line(
        form,
        line,
        number,
        outer,
        inner,
        nonce,
        shaper,
        &mut digits[..end],
    )?;
    add_parts(out, &line[..meta.head], &digits[..end])?;
    Ok(())
}

/// Adds the submissions of all lines.
fn add_lines<H: Shaper>(
    out: &mut Vec<u8>,
    form: Form,
    reports: &[u8],
    outer: &Prepared,
    inner: &Prepared,
    base: u64,
    shaper: &H,
) -> Result<(), EncodeRefused>
    ensures added { OnOk result (out.new.items
        ≡ out.old.items ++ submissions (H.shape shaper.now) form outer.now inner.now base 1 (text_lines reports.now)) }
    ensures accepted { OnOk result (first_refused (H.shape shaper.now) form base 1 (text_lines reports.now) ≡ None) }
    ensures refused { IfErr result (λ e. (e ≡ refusal.OutOfMemory)
        ⊎ (option_map refusal.Line (first_refused (H.shape shaper.now) form base 1 (text_lines reports.now)) ≡ Some e)) }
{
    let mut rest = reports;
    let mut number = 0;
    while let Some((line, behind)) = split_line(rest) {
        number += 1;
        add_line(out, form, line, number, outer, inner, base, shaper)?;
        rest = behind;
    }
    Ok(())
}

/// Encodes as [`encode`] does, with what the shaper gives in place of each value. A line for which it gives nothing, or
/// more than a report of the form carries, is refused as one whose value is too long.
pub fn encode_by<H: Shaper>(
    alloc: Global,
    form: Form,
    reports: &[u8],
    outer: &Keys,
    inner: &Keys,
    base: u64,
    shaper: &H,
) -> Result<Vec<u8>, EncodeRefused>
    ensures { MatchResult result (λ bytes. encoded_by (H.shape shaper.now) form outer.now inner.now base reports.now ≡ Ok bytes.items)
        (λ refused. (refused ≡ refusal.OutOfMemory) ⊎ (encoded_by (H.shape shaper.now) form outer.now inner.now base reports.now ≡ Err refused)) }
{
    let count = line_count(reports);
    if count > u64::from(MOST_RECORDS) {
        return Err(EncodeRefused::TooMany { n: count });
    }
    let line = 2 * form.envelope() as usize + 1;
    let mut out = Vec::with_capacity(alloc, reports.len() + count as usize * line)?;
    add_lines(
        &mut out,
        form,
        reports,
        &prepare(outer),
        &prepare(inner),
        base,
        shaper,
    )?;
    Ok(out)
}

/// Encodes a file of reports: line by line, the report is sealed twice. Line n, counted from 1, has the nonce
/// `base + n`, wrapping at 2^64, in both of its envelopes, so no two lines share a nonce.
///
/// More than 262,144 lines are refused before any is looked at, and else the first bad line, with its first cause.
pub fn encode(
    alloc: Global,
    form: Form,
    reports: &[u8],
    outer: &Keys,
    inner: &Keys,
    base: u64,
) -> Result<Vec<u8>, EncodeRefused>
    ensures { MatchResult result (λ bytes. encoded form outer.now inner.now base reports.now ≡ Ok bytes.items)
        (λ refused. (refused ≡ refusal.OutOfMemory) ⊎ (encoded form outer.now inner.now base reports.now ≡ Err refused)) }
{
    encode_by(alloc, form, reports, outer, inner, base, &Itself)
}
