//! Values that are sent as shares.

ghost use Rattle.std.specs.Prelude.{◌≡◌, ◌≤◌, ◌<◌, ◌+◌, ◌*◌, ◌%◌, ◌∷◌, [], ℕ, List, length, flat_map};
ghost use Rattle.std.specs.List.{range_with_len};
ghost use Rattle.esa_hmac.specs.Hmac as mac;
ghost use Rattle.esa_hmac.specs.Mac.{StandsFor};
ghost use Rattle.esa_shares.specs.Share.{mark_of, piece_of, share_record, share_of, share_shape};
ghost use Rattle.esa_shares.specs.Polynomial.{evaluated};

use crate::polynomial::evaluate;
use esa_encoder::Shaper;
use esa_hmac::Mac;
use sha2::{Digest, Sha256};
use std::marker::Model;

/// The longest value whose share is sent, in bytes.
const LONGEST: usize = 171;

/// The length of a share record in front of the share.
const HEAD: usize = 19;

/// Room for the coefficients of the longest value, at 15 powers.
const COEFFICIENTS: usize = 2565;

/// Sends each value as a share of it.
#[derive(Drop)]
pub struct ShareShaper {
    t: u8,
    key: [u8; 32],
    mac: Mac,
}

impl Model for ShareShaper {
    ghost use Rattle.esa_shares.specs.Share.{Sharing};

    ghost Value = { Sharing };

    ghost use Rattle.esa_shares.specs.Inside.{sharing_in, IsSharing};

    ghost view = { sharing_in };

    ghost invariant = { IsSharing };
}

/// The 32 coefficients of a block of 32 bytes of the value, at a power of x.
fn block(begun: &Mac, power: u8, number: u8, value: &[u8]) -> [u8; 32]
    ensures { (key : List ℕ) → StandsFor begun.now key [] → result ≡ mac.hmac key (power ∷ number ∷ value.now) }
{
    let mut code = begun.again();
    code.feed(&[power, number]);
    code.feed(value);
    code.finish()
}

/// Writes the coefficients at a power of x.
fn put_piece(begun: &Mac, power: u8, value: &[u8], out: &mut [u8])
    requires short { length value.now ≤ 171 }
    requires room { length out.old ≡ length value.now }
    ensures { (key : List ℕ) → StandsFor begun.now key [] → out.new ≡ piece_of key value.now power }
{
    let mut digest = [0; 32];
    for y in 0..out.len() {
        if y % 32 == 0 {
            digest = block(begun, power, (y / 32) as u8, value);
        }
        out[y] = digest[y % 32];
    }
}

/// Writes the coefficients at so many powers of x, from this one on.
fn put_pieces(begun: &Mac, power: u8, count: u8, value: &[u8], rows: &mut [u8])
    requires short { length value.now ≤ 171 }
    requires few { power + count < 256 }
    requires room { length rows.old ≡ count * length value.now }
    ensures { (key : List ℕ) → StandsFor begun.now key [] → rows.new ≡ flat_map (piece_of key value.now) (range_with_len power count) }
{
    if count == 0 {
        return;
    }
    let (row, rest) = rows.split_at_mut(value.len());
    put_piece(begun, power, value, row);
    put_pieces(begun, power + 1, count - 1, value, rest);
}

/// What stands in front of a share.
fn head_of(t: u8, point: u8, value: &[u8]) -> [u8; 19]
    ensures { result ≡ 229 ∷ t ∷ point ∷ mark_of value.now }
{
    let mut head = [
        0xe5, t, point, 0, 0, 0, 0, 0, 0, 0, 0, 0, 0, 0, 0, 0, 0, 0, 0,
    ];
    head[3..].copy_from_slice(&Sha256::digest(value)[..16]);
    head
}

/// Writes the share record of a value under coefficients.
fn put_record(t: u8, point: u8, value: &[u8], coefs: &[u8], out: &mut [u8])
    requires some { 0 < length value.now }
    requires whole { length coefs.now % length value.now ≡ 0 }
    requires room { length out.old ≡ 19 + length value.now }
    ensures { out.new ≡ share_record t point (mark_of value.now) (evaluated value.now coefs.now point) }
{
    let (head, share) = out.split_at_mut(HEAD);
    head.copy_from_slice(&head_of(t, point, value));
    evaluate(value, coefs, point, share);
}

impl ShareShaper {
    /// Shares of which it takes `t` to give back the value, with coefficients from the key.
    pub fn make(t: u8, key: [u8; 32]) -> ShareShaper
        requires some { 2 ≤ t }
        requires few { t ≤ 16 }
        ensures { result ≡ record { t = t; key = key } }
    {
        let mac = Mac::start(&key);
        ShareShaper { t, key, mac }
    }

    /// Writes the share of a value at a point.
    fn put_share(&self, value: &[u8], point: u8, out: &mut [u8])
        requires some { 0 < length value.now }
        requires short { length value.now ≤ 171 }
        requires room { length out.old ≡ 19 + length value.now }
        ensures { out.new ≡ share_of self.now.t self.now.key value.now point }
    {
        let mut room = [0; COEFFICIENTS];
        let (coefs, _) = room.split_at_mut(usize::from(self.t - 1) * value.len());
        put_pieces(&self.mac, 1, self.t - 1, value, coefs);
        put_record(self.t, point, value, coefs, out);
    }
}

impl Shaper for ShareShaper {
    ghost shape = { λ s. share_shape s.t s.key };

    fn shape(&self, value: &[u8], nonce: u64, out: &mut [u8; 190]) -> Option<usize> {
        if LONGEST < value.len() {
            return None;
        }
        if value.is_empty() {
            return Some(0);
        }
        let point = (1 + nonce % 255) as u8;
        let end = HEAD + value.len();
        self.put_share(value, point, &mut out[..end]);
        Some(end)
    }
}
