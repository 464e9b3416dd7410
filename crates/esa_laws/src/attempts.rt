//! How the attempts of a run follow one another, and the steps of a compression.

ghost use Rattle.std.specs.Prelude.{◌≡◌, ℕ, ◌+◌, ◌==◌, true, false, ◌&&◌, if◌then◌else◌, Some, None, List, [], ◌∷◌, ◌++◌, length, map, count_by};
ghost use Rattle.esa_params.specs.Sizes.{Sizes};
ghost use Rattle.esa_spec.specs.Draws.{Draw};
ghost use Rattle.esa_spec.specs.Traces.{attempt_trace, is_failed, all_failed, attempts, good_attempt, trace, walk};
ghost use Rattle.esa_spec.specs.Verdicts.{Step, step_verdict, is_good, first_bad, targets, reached, is_finished, verdict};

/// One attempt more: it is made where each attempt before it failed, and succeeds where it is finished and good.
pub fn one_attempt_more()
    ensures trace { (p : Sizes) (ds : ℕ → Draw) (a : ℕ) (hs : List (List ℕ)) (h : List ℕ)
        → attempts p ds a (hs ++ h ∷ [])
        ≡ attempts p ds a hs ++ (if all_failed p ds a hs then attempt_trace p (ds (a + length hs)) (a + length hs) h else []) }
    ensures failed { (p : Sizes) (ds : ℕ → Draw) (a : ℕ) (hs : List (List ℕ)) (h : List ℕ)
        → all_failed p ds a (hs ++ h ∷ []) ≡ (all_failed p ds a hs && is_failed p (ds (a + length hs)) h) }
    ensures good { (p : Sizes) (ds : ℕ → Draw) (a : ℕ) (hs : List (List ℕ)) (h : List ℕ) → all_failed p ds a hs ≡ true
        → good_attempt p ds a (hs ++ h ∷ [])
        ≡ (if is_finished p (ds (a + length hs)) h
        then (if is_good (verdict p (ds (a + length hs)) h) then Some (a + length hs) else None) else None) }
{}

/// Attempts behind one that is unfinished or good aren't made: their lists add nothing.
pub fn later_attempts()
    ensures attempts { (p : Sizes) (ds : ℕ → Draw) (a : ℕ) (hs more : List (List ℕ)) → all_failed p ds a hs ≡ false
        → attempts p ds a (hs ++ more) ≡ attempts p ds a hs }
    ensures good { (p : Sizes) (ds : ℕ → Draw) (a : ℕ) (hs more : List (List ℕ)) → all_failed p ds a hs ≡ false
        → good_attempt p ds a (hs ++ more) ≡ good_attempt p ds a hs }
    ensures trace { (p : Sizes) (ds : ℕ → Draw) (hs more : List (List ℕ)) → all_failed p ds 0 hs ≡ false
        → trace p ds (hs ++ more) ≡ trace p ds hs }
    ensures success { (p : Sizes) (ds : ℕ → Draw) (a m : ℕ) (hs : List (List ℕ)) → good_attempt p ds a hs ≡ Some m
        → all_failed p ds a hs ≡ false }
{}

/// Steps of a compression, one part after another: the second part is made where the first one is good.
pub fn steps_follow()
    ensures verdict { (p : Sizes) (d : Draw) (xs ys : List Step)
        → first_bad (map (step_verdict p d) (xs ++ ys))
        ≡ (if is_good (first_bad (map (step_verdict p d) xs))
        then first_bad (map (step_verdict p d) ys) else first_bad (map (step_verdict p d) xs)) }
    ensures accesses { (p : Sizes) (d : Draw) (a : ℕ) (xs ys : List Step)
        → walk p d a (xs ++ ys) ≡ walk p d a xs ++ (if is_good (first_bad (map (step_verdict p d) xs)) then walk p d a ys else []) }
{}

/// One target more: the places that have it are reached too.
pub fn one_target_more()
    ensures none { (p : Sizes) (d : Draw) → reached p d 0 ≡ 0 }
    ensures more { (p : Sizes) (d : Draw) (i : ℕ) → reached p d (i + 1) ≡ reached p d i + count_by (λ t. t == i) (targets p d) }
{}
