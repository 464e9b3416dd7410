//! Lines for people.

ghost use Rattle.std.specs.Prelude.{◌≡◌, ◌++◌, ◌∷◌, [], ℕ, List, Option, OnOk, OnErr};
ghost use Rattle.esa_outside.specs.Cause.{HasCause};
ghost use Rattle.esa_outside.specs.Heard.{Event, printed as text_printed, after};
ghost use Rattle.esa_outside.specs.Told.{line_of, AddsFront};

use crate::Failed;

/// A printer of lines. It may tell all bytes printed so far.
///
/// A call fails only where the count of faults rose in that call. A call that does not fail leaves the
/// count.
///
/// What each call that did not fail printed is heard, also of a printer that tells nothing. It is there
/// for contracts alone.
pub trait Printer {
    /// All bytes printed so far, if the printer tells.
    ghost told: { Self → Option (List ℕ) };

    /// How many calls failed, or 2^64 - 1 if they were more.
    ghost faults: { Self → ℕ };

    /// What the calls that did not fail printed, in order.
    ghost heard: { Self → List Event };

    /// How many calls failed, or 2^64 - 1 if they were more.
    fn faults(&self) -> u64
        ensures { result ≡ faults self.now };

    /// Prints the text and one newline. A failed call may have printed a front of that.
    fn line(&mut self, text: &[u8]) -> Result<(), Failed>
        ensures printed { (bytes : List ℕ) → told self.old ≡ Some bytes → OnOk result (told self.new ≡ Some (bytes ++ line_of text.now)) }
        ensures failed { (bytes : List ℕ) → told self.old ≡ Some bytes → OnErr result (AddsFront bytes (line_of text.now) (told self.new)) }
        ensures silent { told self.old ≡ None → told self.new ≡ None }
        ensures heard { heard self.new ≡ after (heard self.old) (λ _. text_printed text.now ∷ []) result }
        ensures cause { HasCause (faults self.old) (faults self.new) ⊥ result };
}
