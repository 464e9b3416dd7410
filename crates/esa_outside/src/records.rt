//! A batch of records, all of one length.

ghost use Rattle.std.specs.Prelude.{◌≡◌, ◌*◌, ◌+◌, ◌≤◌, ℕ, List, Option, OnOk, All, IsOk, Some, length, take, drop, []};
ghost use Rattle.std.specs.List.{concat};
ghost use Rattle.esa_outside.specs.Cause.{HasCause};
ghost use Rattle.esa_outside.specs.Heard.{Event, after};

use crate::Failed;

/// A list of records that are read by their places. It may tell them.
///
/// A call fails only where the count of faults rose in that call. A call that does not fail leaves the
/// count.
pub trait Records {
    /// A plain value beside the list that no call changes, such as the files that the records come from.
    /// It is there for contracts alone.
    type Ground;

    /// The records, if they are told.
    ghost told: { Self → Option (List (List ℕ)) };

    /// The plain value that no call changes.
    ghost grounds: { Self → Self.Ground };

    /// How many records there are.
    ghost count: { Self → ℕ };

    /// The length of each record, in bytes.
    ghost size: { Self → ℕ };

    /// How many calls failed, or 2^64 - 1 if they were more.
    ghost faults: { Self → ℕ };

    /// What the calls of the cabinet under it gave or took, for a list that is read from a cabinet.
    ghost heard: { Self → List Event };

    /// What is heard where these bytes are read from a place on, by the plain value that no call changes.
    ghost part: { Self.Ground → ℕ → List ℕ → List Event };

    /// How many calls failed, or 2^64 - 1 if they were more.
    fn faults(&self) -> u64
        ensures { result ≡ faults self.now };

    /// How many records there are.
    fn count(&self) -> u32
        ensures { result ≡ count self.now };

    /// The length of each record, in bytes.
    fn size(&self) -> u32
        ensures { result ≡ size self.now };

    /// A law of every list of records: where they are told, they are `count` many of `size` bytes.
    fn told_as_counted(&self)
        ensures number { (records : List (List ℕ)) → told self.now ≡ Some records → length records ≡ count self.now }
        ensures length { (records : List (List ℕ)) → told self.now ≡ Some records → All (λ bytes. length bytes ≡ size self.now) records };

    /// Fills `out` with the records from the place `first` on, one after another. With an empty `out` it
    /// does not fail.
    fn records(&mut self, first: u32, out: &mut [u8]) -> Result<(), Failed>
        requires whole { (n : ℕ) × (length out.old ≡ n * size self.old) × (first + n ≤ count self.old) }
        ensures records { (records : List (List ℕ)) (n : ℕ) → told self.old ≡ Some records → length out.old ≡ n * size self.old → first + n ≤ count self.old
            → OnOk result (out.new ≡ concat (take n (drop first records))) }
        ensures told { told self.new ≡ told self.old }
        ensures grounds { grounds self.new ≡ grounds self.old }
        ensures count { count self.new ≡ count self.old }
        ensures size { size self.new ≡ size self.old }
        ensures heard { heard self.new ≡ after (heard self.old) (λ _. part (grounds self.old) first out.new) result }
        ensures cause { HasCause (faults self.old) (faults self.new) ⊥ result }
        ensures empty { out.old ≡ [] → IsOk result × (faults self.new ≡ faults self.old) };
}
