//! Coefficients under which a secret has given shares.

ghost use Rattle.std.specs.Prelude.{◌≡◌, ◌≢◌, ◌<◌, ◌+◌, ◌*◌, ℕ, All, length, flat_map, slice_index};
ghost use Rattle.std.specs.Int.RustNames.{bit_xor};
ghost use Rattle.esa_shares.specs.Field as field;
ghost use Rattle.esa_shares.specs.Polynomial.{ArePoints, column, evaluated};
ghost use Rattle.esa_shares.specs.Newton.{slopes, expanded, interpolated};

use crate::field::{inverse, mul};
use crate::polynomial::add_scaled;

/// Replaces each byte of a row by its difference from the first row's byte, times the scale.
fn scale_difference(row: &mut [u8], first: &[u8], scale: u8)
    requires { length row.old ≡ length first.now }
    ensures { (y : ℕ) → y < length row.old → slice_index row.new y ≡ field.times (bit_xor (slice_index row.old y) (slice_index first.now y)) scale }
{
    for y in 0..row.len() {
        row[y] = mul(row[y] ^ first[y], scale);
    }
}

/// Replaces the values at the points by the slopes from the point x, where the values are those of the first row.
fn put_slopes(x: u8, first: &[u8], points: &[u8], rows: &mut [u8])
    requires apart { All (λ z. z ≢ x) points.now }
    requires whole { length rows.old ≡ length points.now * length first.now }
    ensures { (y : ℕ) → y < length first.now → column (length first.now) y (length points.now) rows.new
        ≡ slopes x (slice_index first.now y) points.now (column (length first.now) y (length points.now) rows.old) }
{
    let Some((point, others)) = points.split_first() else {
        return;
    };
    let (row, rest) = rows.split_at_mut(first.len());
    scale_difference(row, first, inverse(*point ^ x));
    put_slopes(x, first, others, rest);
}

/// Multiplies the polynomials in all rows but the first by the difference from the point x, and adds the first row.
fn expand(x: u8, size: usize, behind: usize, rows: &mut [u8])
    requires { length rows.old ≡ (behind + 1) * size }
    ensures { (y : ℕ) → y < size → column size y (behind + 1) rows.new ≡ expanded x (column size y (behind + 1) rows.old) }
{
    if behind == 0 {
        return;
    }
    let (row, rest) = rows.split_at_mut(size);
    add_scaled(row, &rest[..size], x);
    expand(x, size, behind - 1, rest);
}

/// Replaces the values at the points by the coefficients of the polynomials that have them.
fn interpolate(points: &[u8], size: usize, rows: &mut [u8])
    requires points { ArePoints points.now }
    requires whole { length rows.old ≡ length points.now * size }
    ensures { (y : ℕ) → y < size → column size y (length points.now) rows.new ≡ interpolated points.now (column size y (length points.now) rows.old) }
{
    let Some((x, others)) = points.split_first() else {
        return;
    };
    let (first, rest) = rows.split_at_mut(size);
    put_slopes(*x, first, others, rest);
    interpolate(others, size, rest);
    expand(*x, size, others.len(), rows);
}

/// Coefficients under which the secret has these shares at these points, one piece as long as the secret for each
/// point. So shares at fewer points than it takes say nothing of a secret but its length.
pub fn explain(secret: &[u8], points: &[u8], shares: &[u8], coefs: &mut [u8])
    requires some { 0 < length secret.now }
    requires points { ArePoints points.now }
    requires whole { length shares.now ≡ length points.now * length secret.now }
    requires room { length coefs.old ≡ length shares.now }
    ensures { flat_map (evaluated secret.now coefs.new) points.now ≡ shares.now }
{
    coefs.copy_from_slice(shares);
    put_slopes(0, secret, points, coefs);
    interpolate(points, secret.len(), coefs);
}
