//! The turns that a run has stored can be handed in again.

ghost use Rattle.std.specs.Prelude.{◌≡◌, ℕ, ◌≤◌, true, false, Some, List, length};
ghost use Rattle.esa_ending.specs.Endings.{ComesOut, Overflows, Succeeds};
ghost use Rattle.esa_ending.specs.Seen.{Seen};
ghost use Rattle.esa_job.specs.Refusal.{runs_crew};
ghost use Rattle.esa_model.specs.Forecast.{made};
ghost use Rattle.esa_params.specs.Sizes.{Sizes};
ghost use Rattle.esa_spec.specs.Draws.{Draw};
ghost use Rattle.esa_spec.specs.Traces.{all_failed, good_attempt, trace};
ghost use Rattle.esa_spec.specs.declared.event.Verdict.{Verdict};
ghost use Rattle.esa_taking.specs.Run.{Asked};
ghost use Rattle.esa_taking.specs.Wanted.{sizes_in, turns_by};

/// The turns of a run, as a crew has stored them, are handed in to another run of the same sizes and draws: completed, they
/// decide the same, in the same attempt, with the same accesses and the same order of the records. What a crew's attempt has
/// behind the turn that finished it makes no difference.
pub fn turns_can_be_handed_in_again<T>()
    ensures good { (p : Sizes) (ds : ℕ → Draw) (hs : List (List ℕ)) (a : ℕ) → length hs ≤ p.attempts → good_attempt p ds 0 hs ≡ Some a
        → good_attempt p ds 0 (made p ds hs) ≡ Some a }
    ensures trace { (p : Sizes) (ds : ℕ → Draw) (hs : List (List ℕ)) (a : ℕ) → length hs ≤ p.attempts → good_attempt p ds 0 hs ≡ Some a
        → trace p ds (made p ds hs) ≡ trace p ds hs }
    ensures output { (p : Sizes) (ds : ℕ → Draw) (hs : List (List ℕ)) (a : ℕ) (records out : List T) → length hs ≤ p.attempts → good_attempt p ds 0 hs ≡ Some a
        → ComesOut p ds hs a records out → ComesOut p ds (made p ds hs) a records out }
    ensures failed { (p : Sizes) (ds : ℕ → Draw) (hs : List (List ℕ)) → length hs ≡ p.attempts → all_failed p ds 0 hs ≡ true
        → all_failed p ds 0 (made p ds hs) ≡ true }
    ensures trace_failed { (p : Sizes) (ds : ℕ → Draw) (hs : List (List ℕ)) → length hs ≡ p.attempts → all_failed p ds 0 hs ≡ true
        → trace p ds (made p ds hs) ≡ trace p ds hs }
{}

/// A run by a crew and one that is handed the turns which the crew stored, of the same sizes and draws: where both succeed it is
/// in the same attempt and with the same accesses, where both overflow the accesses are the same, and never does one of them
/// succeed where the other one overflows.
pub fn crews_are_replayed()
    ensures success { (asked again : Asked) (seen other : Seen) (a e : ℕ) → runs_crew asked.job ≡ true → runs_crew again.job ≡ false
        → sizes_in again ≡ sizes_in asked → again.draws ≡ asked.draws → again.turns ≡ turns_by asked seen.history
        → Succeeds (sizes_in asked) asked.draws (turns_by asked seen.history) seen a
        → Succeeds (sizes_in again) again.draws (turns_by again other.history) other e → (e ≡ a) × (other.trace ≡ seen.trace) }
    ensures overflow { (asked again : Asked) (seen other : Seen) (failures others : List Verdict) → runs_crew asked.job ≡ true → runs_crew again.job ≡ false
        → sizes_in again ≡ sizes_in asked → again.draws ≡ asked.draws → again.turns ≡ turns_by asked seen.history
        → Overflows (sizes_in asked) asked.draws (turns_by asked seen.history) seen failures
        → Overflows (sizes_in again) again.draws (turns_by again other.history) other others → other.trace ≡ seen.trace }
    ensures not_failed { (asked again : Asked) (seen other : Seen) (a : ℕ) (failures : List Verdict) → runs_crew asked.job ≡ true → runs_crew again.job ≡ false
        → sizes_in again ≡ sizes_in asked → again.draws ≡ asked.draws → again.turns ≡ turns_by asked seen.history
        → Succeeds (sizes_in asked) asked.draws (turns_by asked seen.history) seen a
        → ¬ Overflows (sizes_in again) again.draws (turns_by again other.history) other failures }
    ensures not_good { (asked again : Asked) (seen other : Seen) (e : ℕ) (failures : List Verdict) → runs_crew asked.job ≡ true → runs_crew again.job ≡ false
        → sizes_in again ≡ sizes_in asked → again.draws ≡ asked.draws → again.turns ≡ turns_by asked seen.history
        → Overflows (sizes_in asked) asked.draws (turns_by asked seen.history) seen failures
        → ¬ Succeeds (sizes_in again) again.draws (turns_by again other.history) other e }
{}
