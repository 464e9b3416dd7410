//! One report, sealed twice.

ghost use Rattle.std.specs.Prelude.{◌≡◌, ◌+◌, ◌*◌, ◌≤◌, length};
ghost use Rattle.hex.specs.Hex.{encode_lower};
ghost use Rattle.esa_params.specs.Form.{report_length, inner_length, body_length, envelope_length};
ghost use Rattle.esa_envelope.specs.declared.label.Label.TheVariants.{Inner};
ghost use Rattle.esa_envelope.specs.Envelope.{sealed_as};
ghost use Rattle.esa_report.specs.Report.{report_of};
ghost use Rattle.esa_encoder.specs.Sealed.{outer_text, sealed_twice};

use esa_envelope::{Label, Prepared, seal_with};
use esa_params::Form;
use esa_report::{code, crowd_of};

/// The length of a crowd's id, in bytes.
const CROWD: usize = 32;

/// The length of the longest outer plain text, in bytes: that of form Two.
const BODY: usize = 264;

/// Seals the report of a value for the analyser.
fn seal_value(form: Form, inner: &Prepared, nonce: u64, value: &[u8], out: &mut [u8])
    requires room { length out.old ≡ inner_length form }
    requires short { 2 + length value.now ≤ report_length form }
    ensures { out.new ≡ sealed_as inner.now Inner nonce (report_of (report_length form) value.now) }
{
    match form {
        Form::One => {
            let report = code::<64>(value).unwrap();
            seal_with(inner, Label::Inner, nonce, &report, out);
        }
        Form::Two => {
            let report = code::<192>(value).unwrap();
            seal_with(inner, Label::Inner, nonce, &report, out);
        }
    }
}

/// Writes what the shuffler opens: a crowd's id, and the report of a value, sealed for the analyser.
fn put_text(form: Form, inner: &Prepared, nonce: u64, crowd: &[u8], value: &[u8], out: &mut [u8])
    requires room { length out.old ≡ body_length form }
    requires short { 2 + length value.now ≤ report_length form }
    ensures { out.new ≡ outer_text form inner.now nonce crowd.now value.now }
{
    out[..CROWD].copy_from_slice(&crowd_of(crowd));
    seal_value(form, inner, nonce, value, &mut out[CROWD..]);
}

/// Seals a crowd's id and the report of a value, itself sealed for the analyser, for the shuffler.
pub(crate) fn seal_report(
    form: Form,
    outer: &Prepared,
    inner: &Prepared,
    nonce: u64,
    crowd: &[u8],
    value: &[u8],
    out: &mut [u8],
)
    requires room { length out.old ≡ envelope_length form }
    requires short { 2 + length value.now ≤ report_length form }
    ensures { out.new ≡ sealed_twice form outer.now inner.now nonce crowd.now value.now }
{
    let end = form.body() as usize;
    let mut body = [0; BODY];
    put_text(form, inner, nonce, crowd, value, &mut body[..end]);
    seal_with(outer, Label::Outer, nonce, &body[..end], out);
}

/// Writes bytes in hexadecimal digits of lower case, two for each.
pub(crate) fn put_hex(bytes: &[u8], out: &mut [u8])
    requires { length out.old ≡ 2 * length bytes.now }
    ensures { out.new ≡ encode_lower bytes.now }
{
    hex::encode_to_slice(bytes, out).unwrap();
}
