//! The attempts of a run that all failed.

ghost use Rattle.std.specs.Prelude.{◌≡◌, ◌≤◌, length};
ghost use Rattle.esa_refusal.specs.Failures.{verdict_text, verdicts_of};

use crate::line::Line;
use crate::refusal::add_numbered;
use esa_spec::Verdict;

/// How each attempt of a run failed, in order. A run has at most 16 attempts.
#[derive(Clone, Copy, PartialEq, Eq, Debug)]
pub struct Failures {
    /// How many attempts were made.
    pub count: u8,
    /// How each of them ended. What stands behind them says nothing.
    pub verdicts: [Verdict; 16],
}

impl Failures {
    /// The failures of attempts that ended so.
    pub fn of(verdicts: &[Verdict]) -> Failures
        requires { length verdicts.now ≤ 16 }
        ensures { verdicts_of result ≡ verdicts.now }
    {
        let mut all = [Verdict::Good; 16];
        all[..verdicts.len()].copy_from_slice(verdicts);
        Failures {
            count: verdicts.len() as u8,
            verdicts: all,
        }
    }

    /// How the attempts that were made ended.
    pub fn made(&self) -> &[Verdict]
        ensures { result.now ≡ verdicts_of self.now }
    {
        let count = usize::from(self.count).min(self.verdicts.len());
        &self.verdicts[..count]
    }
}

/// The line of an attempt that ends so.
pub fn verdict_line(attempt: u64, verdict: &Verdict) -> Line
    ensures { result ≡ verdict_text attempt verdict.now }
{
    let mut line = Line::new();
    add_numbered(&mut line, "attempt ", attempt);
    match verdict {
        Verdict::Good => line.word(" good"),
        Verdict::StashOverflow(bucket) => {
            add_numbered(&mut line, " stash-overflow ", u64::from(*bucket))
        }
        Verdict::StashLeft(target) => add_numbered(&mut line, " stash-left ", u64::from(*target)),
        Verdict::QueueOverflow(bucket) => {
            add_numbered(&mut line, " queue-overflow ", u64::from(*bucket))
        }
        Verdict::QueueStarved(bucket) => {
            add_numbered(&mut line, " queue-starved ", u64::from(*bucket))
        }
    }
    line
}
