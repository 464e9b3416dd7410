//! The turns that were stored give the same accesses as the turns that decide.

ghost use Rattle.std.specs.Prelude.{◌≡◌, ℕ, ◌+◌, ◌<◌, true, Some, List, [], ◌++◌, length, map, take};
ghost use Rattle.esa_ending.specs.Endings.{Succeeds, Overflows, IsCutAt, BatchFails};
ghost use Rattle.esa_ending.specs.Seen.{Seen, Rises, Stays, IsCalm, stored, HasHistory, AreCut, verdict_in};
ghost use Rattle.esa_spec.specs.Fronts.{Begins, EndsWith};
ghost use Rattle.esa_params.specs.Sizes.{Sizes, below};
ghost use Rattle.esa_params.specs.declared.slot.Access.{Access};
ghost use Rattle.esa_spec.specs.Draws.{Draw};
ghost use Rattle.esa_spec.specs.Traces.{all_failed, good_attempt, load, scan, shuffle_trace, trace};

/// Turns that were cut short make a front of the accesses. Turns that weren't are cut short nowhere.
pub fn cut_turns_make_a_front()
    ensures run { (p : Sizes) (ds : ℕ → Draw) (made hs : List (List ℕ)) → AreCut made hs
        → Begins (trace p ds made) (trace p ds hs) }
    ensures shuffle { (p : Sizes) (ds : ℕ → Draw) (made hs : List (List ℕ)) → AreCut made hs
        → Begins (shuffle_trace p ds made) (shuffle_trace p ds hs) }
    ensures whole { (hs : List (List ℕ)) → AreCut hs hs }
    ensures attempts { (hs : List (List ℕ)) (m : ℕ) → AreCut (take m hs) hs }
{}

/// The turns of the attempts up to the one that succeeds make all accesses: those of the shuffle, and two scans of its
/// output. Where each attempt failed the accesses of the shuffle are all.
pub fn stored_turns_suffice()
    ensures good { (p : Sizes) (ds : ℕ → Draw) (hs : List (List ℕ)) (m a : ℕ) → good_attempt p ds 0 (take m hs) ≡ Some a
        → good_attempt p ds 0 hs ≡ Some a }
    ensures scanned { (p : Sizes) (ds : ℕ → Draw) (hs : List (List ℕ)) (m a : ℕ) → good_attempt p ds 0 (take m hs) ≡ Some a
        → trace p ds hs ≡ shuffle_trace p ds (take m hs) ++ (scan p a ++ scan p a) }
    ensures trace { (p : Sizes) (ds : ℕ → Draw) (hs : List (List ℕ)) (m a : ℕ) → good_attempt p ds 0 (take m hs) ≡ Some a
        → trace p ds hs ≡ trace p ds (take m hs) }
    ensures failed { (p : Sizes) (ds : ℕ → Draw) (hs : List (List ℕ)) → all_failed p ds 0 hs ≡ true
        → trace p ds hs ≡ shuffle_trace p ds hs }
{}

/// Who knows the accesses by the stored turns, as the shuffler does, knows how the run ended: in success once the
/// output was scanned twice, in an overflow, or cut short at an access or in the load.
pub fn endings_of_stored_turns()
    ensures success { (p : Sizes) (ds : ℕ → Draw) (hs : List (List ℕ)) (seen : Seen) (a : ℕ) → HasHistory p seen
        → IsCalm seen → a < p.attempts → stored p seen ≡ take (a + 1) hs → good_attempt p ds 0 (stored p seen) ≡ Some a
        → seen.trace ≡ shuffle_trace p ds (stored p seen) ++ (scan p a ++ scan p a) → Succeeds p ds hs seen a }
    ensures overflow { (p : Sizes) (ds : ℕ → Draw) (hs : List (List ℕ)) (seen : Seen) → HasHistory p seen
        → IsCalm seen → length hs ≡ p.attempts → stored p seen ≡ hs → all_failed p ds 0 (stored p seen) ≡ true → seen.trace ≡ shuffle_trace p ds (stored p seen)
        → Overflows p ds hs seen (map (verdict_in p ds hs) (below p.attempts)) }
    ensures cut { (p : Sizes) (ds : ℕ → Draw) (hs : List (List ℕ)) (seen : Seen) (access : Access) → HasHistory p seen
        → AreCut (stored p seen) hs → EndsWith seen.trace access → Begins seen.trace (trace p ds (stored p seen))
        → IsCutAt p ds hs seen access }
    ensures cut_in_shuffle { (p : Sizes) (ds : ℕ → Draw) (hs : List (List ℕ)) (seen : Seen) (access : Access) → HasHistory p seen
        → AreCut (stored p seen) hs → EndsWith seen.trace access → Begins seen.trace (shuffle_trace p ds (stored p seen))
        → IsCutAt p ds hs seen access }
    ensures cut_in_load { (p : Sizes) (seen : Seen) → HasHistory p seen → Rises seen.batch → Stays seen.device
        → stored p seen ≡ [] → Begins seen.trace (load p) → length seen.trace < p.b
        → BatchFails p seen (length seen.trace) }
{}
