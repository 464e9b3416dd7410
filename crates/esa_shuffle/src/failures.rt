//! How the attempts of a run failed.

ghost use Rattle.std.specs.Prelude.{◌≡◌, ◌<◌, ◌++◌, ◌∷◌, [], IfOk, length};

use esa_spec::Verdict;
use std::alloc::{AllocError, Global};
use std::marker::Model;

/// How the attempts of a run failed, in order. It is seen as the list of their verdicts. A run has at most 16 attempts, and
/// there is room for so many.
#[derive(Drop)]
pub struct Failures {
    verdicts: Vec<Verdict>,
}

impl Model for Failures {
    ghost use Rattle.std.specs.Prelude.{List, ◌≤◌, vec_capacity};
    ghost use Rattle.esa_spec.specs.declared.event.Verdict.{Verdict};

    ghost Value = { List Verdict };

    ghost view = { λ f. f.verdicts.items };

    ghost invariant = { λ f. 16 ≤ vec_capacity f.verdicts };
}

impl Failures {
    /// No failure, with room for those of a run.
    pub fn make(alloc: Global) -> Result<Failures, AllocError>
        ensures { IfOk result (λ failures. failures ≡ []) }
    {
        let verdicts = Vec::with_capacity(alloc, 16)?;
        Ok(Failures { verdicts })
    }

    /// One failure more.
    pub fn add(&mut self, verdict: Verdict)
        requires { length self.old < 16 }
        ensures { self.new ≡ self.old ++ verdict ∷ [] }
    {
        self.verdicts.push_reserved(verdict);
    }

    /// The verdicts of the attempts, in order.
    pub fn verdicts(&self) -> &[Verdict]
        ensures { result.now ≡ self.now }
    {
        &self.verdicts
    }
}
