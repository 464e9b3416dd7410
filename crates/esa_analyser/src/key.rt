//! Opened reports as sort keys.
//!
//! A report has the value's length before the value. Two reports of one length sort as their values do
//! where that length stands behind the value's zero bytes instead: so they are kept as such keys.

ghost use Rattle.std.specs.Prelude.{◌≡◌, ◌+◌, ◌<◌, ◌≤◌, ◌++◌, length, take, drop, IfSome};
ghost use Rattle.std.specs.Option.{option_map};
ghost use Rattle.esa_report.specs.Report.{IsReportLength};
ghost use Rattle.esa_analyser.specs.Opened.{reported};
ghost use Rattle.esa_analyser.specs.SortKey.{key_value, IsSortKey};

use esa_envelope::{Label, Prepared, unseal_with};
use esa_report::value_of;

/// The length of the field that says how long a value is, in bytes.
const LENGTH: usize = 2;

/// The sort key of an envelope's report. None where the envelope doesn't open, or opens to no report.
pub(crate) fn open<const P: usize>(inner: &Prepared, envelope: &[u8]) -> Option<[u8; P]>
    requires size { IsReportLength P }
    requires whole { length envelope.now ≡ P + 40 }
    ensures value { option_map key_value result ≡ reported inner.now envelope.now }
    ensures key { IfSome result (IsSortKey P) }
{
    let mut report = [0; P];
    if !unseal_with(inner, Label::Inner, envelope, &mut report) {
        return None;
    }
    if value_of(&report).is_none() {
        return None;
    }
    let mut key = [0; P];
    turn(&report, &mut key);
    Some(key)
}

/// Writes the bytes of a report to `key`, those of the value's length behind the rest.
fn turn(report: &[u8], key: &mut [u8])
    requires long { 2 ≤ length report.now }
    requires same_length { length key.old ≡ length report.now }
    ensures { key.new ≡ drop 2 report.now ++ take 2 report.now }
{
    let (length, rest) = report.split_at(LENGTH);
    let (front, back) = key.split_at_mut(rest.len());
    front.copy_from_slice(rest);
    back.copy_from_slice(length);
}

/// The value of a sort key.
pub(crate) fn value(key: &[u8]) -> &[u8]
    requires { 0 < length key.now }
    ensures { result.now ≡ key_value key.now }
{
    let length = usize::from(key[key.len() - 1]);
    &key[..length.min(key.len())]
}
