//! What is sent in place of a value.

ghost use Rattle.std.specs.Prelude.{MatchOption};
ghost use Rattle.esa_encoder.specs.Report.{Shape, itself};
ghost use Rattle.esa_encoder.specs.Shaped.{IsUnshaped, IsShaped};

/// Room for what is sent in place of a value: as much as a report of form Two carries.
pub const ROOM: usize = 190;

/// Says what is sent in place of a value.
pub trait Shaper {
    /// What is sent in place of a value, by the nonce of its line, if anything.
    ghost shape: { Self → Shape };

    /// Writes what is sent in place of the value to the front of `out`, and gives its length. `None` where nothing is
    /// sent for it, and where that is longer than `out`.
    fn shape(&self, value: &[u8], nonce: u64, out: &mut [u8; 190]) -> Option<usize>
        ensures { MatchOption result (IsUnshaped (shape self.now value.now nonce)) (λ n. IsShaped (shape self.now value.now nonce) n out.new) };
}

/// Sends each value as it is.
pub(crate) struct Itself;

impl Shaper for Itself {
    ghost shape = { λ _. itself };

    fn shape(&self, value: &[u8], _nonce: u64, out: &mut [u8; 190]) -> Option<usize> {
        if ROOM < value.len() {
            return None;
        }
        out[..value.len()].copy_from_slice(value);
        Some(value.len())
    }
}
