//! What decides how a run ends: its sizes, its draws and its turns, and nothing else.

ghost use Rattle.std.specs.Prelude.{◌≡◌, ℕ, ◌<◌, ◌≤◌, ◌⊎◌, true, false, Some, List, length, All};
ghost use Rattle.esa_ending.specs.Endings.{Succeeds, ComesOut, Overflows};
ghost use Rattle.esa_ending.specs.Seen.{Seen, SameTargets, SameOrders};
ghost use Rattle.esa_params.specs.Sizes.{Sizes};
ghost use Rattle.esa_spec.specs.Completion.{all_finished, completions};
ghost use Rattle.esa_spec.specs.Draws.{Draw};
ghost use Rattle.esa_spec.specs.Places.{places};
ghost use Rattle.esa_spec.specs.Traces.{all_failed, good_attempt};
ghost use Rattle.esa_spec.specs.Verdicts.{is_good};
ghost use Rattle.esa_spec.specs.declared.event.Verdict.{Verdict};

/// Two runs of the same sizes and turns, whose draws agree on the targets of the attempts that there are: where nothing
/// failed both succeed in the same attempt, or both overflow with the same failures, and they make the same accesses
/// and store the same history. No run can do both.
pub fn runs_agree()
    ensures success { (p : Sizes) (ds es : ℕ → Draw) (hs : List (List ℕ)) (seen other : Seen) (a e : ℕ)
        → ((x : ℕ) → x < length hs → SameTargets p (ds x) (es x))
        → Succeeds p ds hs seen a → Succeeds p es hs other e
        → (a ≡ e) × (seen.trace ≡ other.trace) × (seen.history ≡ other.history) }
    ensures overflow { (p : Sizes) (ds es : ℕ → Draw) (hs : List (List ℕ)) (seen other : Seen) (failures others : List Verdict)
        → ((x : ℕ) → x < length hs → SameTargets p (ds x) (es x))
        → Overflows p ds hs seen failures → Overflows p es hs other others
        → (failures ≡ others) × (seen.trace ≡ other.trace) × (seen.history ≡ other.history) }
    ensures not_both { (p : Sizes) (ds es : ℕ → Draw) (hs : List (List ℕ)) (seen other : Seen) (a : ℕ) (failures : List Verdict)
        → ((x : ℕ) → x < length hs → SameTargets p (ds x) (es x))
        → Succeeds p ds hs seen a → Overflows p es hs other failures → ⊥ }
{}

/// Each failure of an overflow is that of an attempt that is finished and isn't good, and there is one for each
/// attempt.
pub fn failures_are_bad()
    ensures count { (p : Sizes) (ds : ℕ → Draw) (hs : List (List ℕ)) (seen : Seen) (failures : List Verdict)
        → Overflows p ds hs seen failures → length failures ≡ p.attempts }
    ensures bad { (p : Sizes) (ds : ℕ → Draw) (hs : List (List ℕ)) (seen : Seen) (failures : List Verdict)
        → Overflows p ds hs seen failures → All (λ failure. is_good failure ≡ false) failures }
{}

/// Where each attempt is finished, either one of them is the first good one, or all failed.
pub fn one_of_both()
    ensures { (p : Sizes) (ds : ℕ → Draw) (hs : List (List ℕ)) → all_finished p ds 0 hs ≡ true
        → (all_failed p ds 0 hs ≡ true) ⊎ ((a : ℕ) × (a < length hs) × (good_attempt p ds 0 hs ≡ Some a)) }
{}

/// Turns that were handed in are completed: each attempt is finished then, and draws that agree on the targets complete
/// them in the same way.
pub fn completions_decide()
    ensures finished { (p : Sizes) (ds : ℕ → Draw) (turns : List (List ℕ)) → 1 ≤ p.workers
        → All (λ h. All (λ worker. worker < p.workers) h) turns → all_finished p ds 0 (completions p ds 0 turns) ≡ true }
    ensures count { (p : Sizes) (ds : ℕ → Draw) (turns : List (List ℕ)) → length (completions p ds 0 turns) ≡ length turns }
    ensures same { (p : Sizes) (ds es : ℕ → Draw) (turns : List (List ℕ))
        → ((x : ℕ) → x < length turns → SameTargets p (ds x) (es x)) → completions p ds 0 turns ≡ completions p es 0 turns }
{}

/// Draws that agree on targets and orders put the records out in the same order. So two runs of one batch that succeed
/// put out the same list.
pub fn orders_agree<T>()
    ensures places { (p : Sizes) (d e : Draw) (h : List ℕ) → SameTargets p d e → SameOrders p d e → places p d h ≡ places p e h }
    ensures output { (p : Sizes) (ds es : ℕ → Draw) (hs : List (List ℕ)) (seen other : Seen) (a e : ℕ) (records out others : List T)
        → ((x : ℕ) → x < length hs → SameTargets p (ds x) (es x)) → SameOrders p (ds a) (es a)
        → Succeeds p ds hs seen a → Succeeds p es hs other e
        → ComesOut p ds hs a records out → ComesOut p es hs e records others → out ≡ others }
{}
