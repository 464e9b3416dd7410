//! Shares that are put together again.

ghost use Rattle.std.specs.Prelude.{◌≡◌, ◌<◌, ◌*◌, length, bytes_eq};
ghost use Rattle.esa_shares.specs.Polynomial.{ArePoints, recovered};
ghost use Rattle.esa_shares.specs.Share.{mark_of, is_share};

use crate::polynomial::recover;
use esa_params::MOST_SHARES;
use sha2::{Digest, Sha256};

/// Whether a value is a share record. One that is no share record stands for itself.
pub fn is_share(value: &[u8]) -> bool
    ensures { result ≡ is_share value.now }
{
    19 < value.len()
        && value[0] == 0xe5
        && 2 <= value[1]
        && u32::from(value[1]) <= MOST_SHARES
        && 0 < value[2]
}

/// Writes what the shares at the points give back, and says whether it is a value of the mark.
pub fn open_shares(points: &[u8], shares: &[u8], mark: &[u8], out: &mut [u8]) -> bool
    requires some { 0 < length points.now }
    requires points { ArePoints points.now }
    requires whole { length shares.now ≡ length points.now * length out.old }
    ensures value { out.new ≡ recovered (length out.old) points.now shares.now }
    ensures marked { result ≡ bytes_eq (mark_of out.new) mark.now }
{
    recover(points, shares, out);
    let digest = Sha256::digest(&*out);
    &digest[..16] == mark
}
