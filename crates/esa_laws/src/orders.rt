//! Neither the verdict nor the accesses depend on the orders that are drawn.

ghost use Rattle.std.specs.Prelude.{◌≡◌, ℕ, ◌<◌, List, length};
ghost use Rattle.esa_params.specs.Sizes.{Sizes};
ghost use Rattle.esa_spec.specs.Completion.{full};
ghost use Rattle.esa_spec.specs.Draws.{Draw};
ghost use Rattle.esa_spec.specs.Traces.{attempt_trace, trace};
ghost use Rattle.esa_spec.specs.Verdicts.{is_finished, verdict};

/// Draws with the same targets have the same verdict, the same completion and the same accesses. It is enough that the
/// targets of the buckets that there are agree, in the attempts that are made.
pub fn orders_do_not_count()
    ensures finished { (p : Sizes) (d e : Draw) → ((j : ℕ) → j < p.b → d.targets j ≡ e.targets j) → (h : List ℕ)
        → is_finished p d h ≡ is_finished p e h }
    ensures verdict { (p : Sizes) (d e : Draw) → ((j : ℕ) → j < p.b → d.targets j ≡ e.targets j) → (h : List ℕ)
        → verdict p d h ≡ verdict p e h }
    ensures completion { (p : Sizes) (d e : Draw) → ((j : ℕ) → j < p.b → d.targets j ≡ e.targets j) → (turns : List ℕ)
        → full p d turns ≡ full p e turns }
    ensures attempt { (p : Sizes) (d e : Draw) → ((j : ℕ) → j < p.b → d.targets j ≡ e.targets j) → (a : ℕ) (h : List ℕ)
        → attempt_trace p d a h ≡ attempt_trace p e a h }
    ensures trace { (p : Sizes) (ds es : ℕ → Draw) (hs : List (List ℕ))
        → ((a : ℕ) → a < length hs → (j : ℕ) → j < p.b → (ds a).targets j ≡ (es a).targets j) → trace p ds hs ≡ trace p es hs }
{}
