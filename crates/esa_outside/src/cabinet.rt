//! Files by their names.

ghost use Rattle.std.specs.Prelude.{◌≡◌, ◌⊎◌, ◌+◌, ◌++◌, ◌∷◌, ℕ, List, [], Option, IfOk, OnOk, OnErr, IsErr, length};
ghost use Rattle.std.specs.Option.{option_map};
ghost use Rattle.std.specs.FinMap as map;
ghost use Rattle.esa_outside.specs.Files.{Files};
ghost use Rattle.esa_outside.specs.Cause.{HasCause};
ghost use Rattle.esa_outside.specs.Heard.{Event, length_of, part_of, started as file_started, added as bytes_added, after};
ghost use Rattle.esa_outside.specs.Told.{Lacks, IsPart, HoldsFront};

use crate::Failed;

/// A cabinet of files. It may tell its contents, and then its answers are by what it tells.
///
/// A call fails only where the count of faults rose in that call, or where the cabinet tells and the
/// file is not there or ends before what is asked for. A call that does not fail leaves the count.
///
/// What each call that did not fail gave or took is heard, also of a cabinet that tells nothing. It is
/// there for contracts alone.
pub trait Cabinet {
    /// What the files hold, if the cabinet tells.
    ghost told: { Self → Option Files };

    /// How many calls failed by the cabinet's own fault, or 2^64 - 1 if they were more.
    ghost faults: { Self → ℕ };

    /// What the calls that did not fail gave or took, in order.
    ghost heard: { Self → List Event };

    /// How many calls failed by the cabinet's own fault, or 2^64 - 1 if they were more.
    fn faults(&self) -> u64
        ensures { result ≡ faults self.now };

    /// The length of a file, in bytes.
    fn length(&mut self, name: &str) -> Result<u64, Failed>
        ensures length { (files : Files) → told self.old ≡ Some files → IfOk result (λ n. option_map length (map.get files name.now) ≡ Some n) }
        ensures told { told self.new ≡ told self.old }
        ensures heard { heard self.new ≡ after (heard self.old) (λ n. length_of name.now n ∷ []) result }
        ensures cause { HasCause (faults self.old) (faults self.new) (Lacks (told self.old) name.now 0) result };

    /// Fills `out` with the bytes of a file from the place `at` on. After a failure nothing is said of
    /// what `out` holds.
    fn read_at(&mut self, name: &str, at: u64, out: &mut [u8]) -> Result<(), Failed>
        ensures bytes { (files : Files) → told self.old ≡ Some files → OnOk result (IsPart (map.get files name.now) at out.new) }
        ensures told { told self.new ≡ told self.old }
        ensures heard { heard self.new ≡ after (heard self.old) (λ _. part_of name.now at out.new ∷ []) result }
        ensures cause { HasCause (faults self.old) (faults self.new) (Lacks (told self.old) name.now (at + length out.old)) result };

    /// Leaves an empty file of this name, and every other file as it was.
    fn start(&mut self, name: &str) -> Result<(), Failed>
        ensures started { (files : Files) → told self.old ≡ Some files → OnOk result (told self.new ≡ Some (map.insert files name.now [])) }

        // A failed call leaves the file as it was, or empty.
        ensures failed { (files : Files) → told self.old ≡ Some files → OnErr result ((told self.new ≡ Some files) ⊎ (told self.new ≡ Some (map.insert files name.now []))) }
        ensures silent { told self.old ≡ None → told self.new ≡ None }
        ensures heard { heard self.new ≡ after (heard self.old) (λ _. file_started name.now ∷ []) result }
        ensures cause { HasCause (faults self.old) (faults self.new) ⊥ result };

    /// Adds bytes at a file's end, and leaves every other file as it was.
    fn append(&mut self, name: &str, bytes: &[u8]) -> Result<(), Failed>
        ensures added { (files : Files) (held : List ℕ) → told self.old ≡ Some files → map.get files name.now ≡ Some held
            → OnOk result (told self.new ≡ Some (map.insert files name.now (held ++ bytes.now))) }

        // A failed call leaves a front of what the file would hold.
        ensures failed { (files : Files) (held : List ℕ) → told self.old ≡ Some files → map.get files name.now ≡ Some held
            → OnErr result (HoldsFront files name.now (held ++ bytes.now) (told self.new)) }
        ensures absent { (files : Files) → told self.old ≡ Some files → map.get files name.now ≡ None → IsErr result × (told self.new ≡ Some files) }
        ensures silent { told self.old ≡ None → told self.new ≡ None }
        ensures heard { heard self.new ≡ after (heard self.old) (λ _. bytes_added name.now bytes.now ∷ []) result }
        ensures cause { HasCause (faults self.old) (faults self.new) (Lacks (told self.old) name.now 0) result };
}
