//! Polynomials over the field: their values, and the secret that shares give back.

ghost use Rattle.std.specs.Prelude.{◌≡◌, ◌<◌, ◌+◌, ◌*◌, ◌%◌, ℕ, List, All, length, flat_map, slice_index};
ghost use Rattle.std.specs.Int.RustNames.{bit_xor};
ghost use Rattle.esa_shares.specs.Field as field;
ghost use Rattle.esa_shares.specs.Polynomial.{factor, weight, ArePoints, evaluated, recovered};

use crate::field::{inverse, mul};

/// Replaces each byte by x times itself, plus the byte of the row.
fn scale_and_add(out: &mut [u8], x: u8, row: &[u8])
    requires { length row.now ≡ length out.old }
    ensures { (y : ℕ) → y < length out.old → slice_index out.new y ≡ bit_xor (slice_index row.now y) (field.times x (slice_index out.old y)) }
{
    for y in 0..out.len() {
        out[y] = row[y] ^ mul(x, out[y]);
    }
}

/// Adds the row's bytes, each times the scale.
pub(crate) fn add_scaled(out: &mut [u8], row: &[u8], scale: u8)
    requires { length row.now ≡ length out.old }
    ensures { (y : ℕ) → y < length out.old → slice_index out.new y ≡ bit_xor (slice_index out.old y) (field.times (slice_index row.now y) scale) }
{
    for y in 0..out.len() {
        out[y] ^= mul(row[y], scale);
    }
}

/// The values at x of the polynomials, byte by byte: the secret's byte y is the constant of polynomial y, and its
/// further coefficients are the bytes y of the pieces of `coefs`, each as long as the secret.
pub fn evaluate(secret: &[u8], coefs: &[u8], x: u8, out: &mut [u8])
    requires some { 0 < length secret.now }
    requires room { length out.old ≡ length secret.now }
    requires whole { length coefs.now % length secret.now ≡ 0 }
    ensures { out.new ≡ evaluated secret.now coefs.now x }
{
    let size = secret.len();
    let mut left = coefs.len() / size;
    out.fill(0);
    while 0 < left {
        left -= 1;
        scale_and_add(out, x, &coefs[left * size..left * size + size]);
    }
    scale_and_add(out, x, secret);
}

/// Lagrange's factor of another point.
fn factor_of(x: u8, other: u8) -> u8
    ensures { result ≡ factor x other }
{
    if other == x {
        1
    } else {
        mul(other, inverse(other ^ x))
    }
}

/// Lagrange's weight of a point among points.
fn weight_of(x: u8, points: &[u8]) -> u8
    ensures { result ≡ weight x points.now }
{
    let mut product = 1;
    for point in points {
        product = mul(product, factor_of(x, *point));
    }
    product
}

/// The values at 0 of the polynomials of least degree that have the shares at the points, byte by byte.
pub fn recover(points: &[u8], shares: &[u8], out: &mut [u8])
    requires some { 0 < length points.now }
    requires points { ArePoints points.now }
    requires whole { length shares.now ≡ length points.now * length out.old }
    ensures value { out.new ≡ recovered (length out.old) points.now shares.now }

    // Shares of a secret under as many coefficients as there are points but one give it back, whichever points they
    // stand at.
    ensures secret { (secret coefs : List ℕ) → All (λ b. b < 256) secret → All (λ b. b < 256) coefs → length secret ≡ length out.old
        → length secret + length coefs ≡ length shares.now → shares.now ≡ flat_map (evaluated secret coefs) points.now
        → out.new ≡ secret }
{
    let size = out.len();
    out.fill(0);
    for (z, point) in points.iter().enumerate() {
        add_scaled(
            out,
            &shares[z * size..z * size + size],
            weight_of(*point, points),
        );
    }
}
