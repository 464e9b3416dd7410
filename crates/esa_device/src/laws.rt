//! Laws over logs: each is what a function with an empty body ensures.
//!
//! The functions do nothing when they run. They are there so that each law is proved where a contract names it.

ghost use Rattle.std.specs.Prelude.{◌≡◌, ◌≢◌, ℕ, List, [], ◌∷◌, ◌++◌, Some};
ghost use Rattle.esa_params.specs.Slots.{slot_number};
ghost use Rattle.esa_params.specs.Sizes.{Sizes};
ghost use Rattle.esa_params.specs.declared.slot.Op.{Op};
ghost use Rattle.esa_device.specs.Logs.{Carried, Gave, IsFaithful, Took};

/// A beginning of a faithful log is faithful. With one entry more a log stays faithful where that entry is no read,
/// failed, or gave what the latest write of its slot took.
pub fn beginnings_are_faithful()
    ensures front { (p : Sizes) (log more : List Carried) → IsFaithful p (log ++ more) → IsFaithful p log }
    ensures more { (p : Sizes) (log : List Carried) (last : Carried) → IsFaithful p log
        → ((given written : List ℕ) → Gave last given → Took p (slot_number p last.access) written log → given ≡ written)
        → IsFaithful p (log ++ last ∷ []) }
    ensures last { (p : Sizes) (log : List Carried) (last : Carried) (given written : List ℕ) → IsFaithful p (log ++ last ∷ [])
        → Gave last given → Took p (slot_number p last.access) written log → given ≡ written }
{}

/// What the latest write of a slot took stays so over reads and over writes of other slots, and a write that did not
/// fail is the latest of its slot.
pub fn latest_writes_stay()
    ensures read { (p : Sizes) (number : ℕ) (bytes : List ℕ) (log : List Carried) (last : Carried)
        → last.access.op ≡ Op.Read → Took p number bytes log → Took p number bytes (log ++ last ∷ []) }
    ensures elsewhere { (p : Sizes) (number : ℕ) (bytes : List ℕ) (log : List Carried) (last : Carried)
        → number ≢ slot_number p last.access → Took p number bytes log → Took p number bytes (log ++ last ∷ []) }
    ensures written { (p : Sizes) (bytes : List ℕ) (log : List Carried) (last : Carried)
        → last.access.op ≡ Op.Write → last.bytes ≡ Some bytes
        → Took p (slot_number p last.access) bytes (log ++ last ∷ []) }
{}
