//! The predictor: what a shuffle will do, from its sizes, its coins and the turns that are handed in.

ghost use Rattle.std.specs.Prelude.{◌≡◌, IfOk};
ghost use Rattle.esa_spec.specs.Draws.{drawn};
ghost use Rattle.esa_spec.specs.Traces.{trace};
ghost use Rattle.esa_model.specs.Forecast.{made, verdicts};
ghost use Rattle.esa_model.specs.Ready.{IsReady};
ghost use Rattle.esa_model.specs.Turns.{AreWorkers};

use crate::distribution::Distribution;
use crate::forecast::Forecast;
use crate::turns::Turns;
use esa_params::Plan;
use esa_spec::{Coins, Verdict};
use std::alloc::{AllocError, Global};
use std::marker::Model;

/// Computes what shuffles of one plan will do. It keeps two numbers for each target and no record, and takes all of its
/// memory when it is made.
#[derive(Drop)]
pub struct Predictor {
    distribution: Distribution,
    forecast: Forecast,
}

impl Model for Predictor {
    ghost use Rattle.esa_params.specs.Sizes.{Sizes};
    ghost use Rattle.esa_model.specs.Ready.{IsReady};

    ghost Value = { Sizes };

    ghost view = { λ a. a.distribution.lines.p };

    ghost invariant = { λ a. IsReady a.distribution a.forecast };
}

impl Predictor {
    ghost use Rattle.std.specs.Borrow.{sem};
    ghost use Rattle.std.specs.Io.BufRead.{Rests};
    ghost use Rattle.esa_model.specs.contracts.predictor.Predictor.{the_row};

    /// A predictor for a plan.
    pub fn make(alloc: Global, plan: Plan) -> Result<Predictor, AllocError>
        ensures { IfOk result (λ predictor. predictor ≡ plan) }
    {
        let distribution = Distribution::make(alloc, plan)?;
        let forecast = Forecast::make(alloc, &plan)?;
        Ok(Predictor {
            distribution,
            forecast,
        })
    }

    /// Completes the list of turns of each attempt, and tells how the attempts end, up to the first that succeeds, and
    /// all accesses that the shuffle makes. An attempt without a list has the empty one. This takes no memory.
    pub fn run<C: Coins>(&mut self, coins: &C, turns: &Turns) -> &Forecast
        requires plan { C.plan coins.now ≡ self.old }
        requires workers { AreWorkers self.old.workers turns.now }
        ensures verdicts { result.now.verdicts ≡ verdicts self.old (drawn (C.target_list coins.now) (C.order_list coins.now)) 0
            (made self.old (drawn (C.target_list coins.now) (C.order_list coins.now)) turns.now) }
        ensures accesses { result.now.accesses ≡ trace self.old (drawn (C.target_list coins.now) (C.order_list coins.now))
            (made self.old (drawn (C.target_list coins.now) (C.order_list coins.now)) turns.now) }
        ensures* plan_stays { sem 𝓛 (Rests the_row self.entry (λ new. new ≡ self.old)) }
    {
        predict(&mut self.distribution, &mut self.forecast, coins, turns);
        &self.forecast
    }
}

/// How many attempts a plan has.
fn attempts(plan: &Plan) -> u32
    ensures { result ≡ plan.now.attempts }
{
    plan.attempts()
}

/// Fills in the forecast.
fn predict<C: Coins>(
    distribution: &mut Distribution,
    forecast: &mut Forecast,
    coins: &C,
    turns: &Turns,
)
    requires plan { C.plan coins.now ≡ distribution.old.lines.p }
    requires workers { AreWorkers distribution.old.lines.p.workers turns.now }
    requires ready { IsReady distribution.old forecast.old }
    ensures plan { distribution.new.lines.p ≡ distribution.old.lines.p }
    ensures ready { IsReady distribution.new forecast.new }
    ensures verdicts { forecast.new.verdicts ≡ verdicts distribution.old.lines.p (drawn (C.target_list coins.now) (C.order_list coins.now)) 0
        (made distribution.old.lines.p (drawn (C.target_list coins.now) (C.order_list coins.now)) turns.now) }
    ensures accesses { forecast.new.accesses ≡ trace distribution.old.lines.p (drawn (C.target_list coins.now) (C.order_list coins.now))
        (made distribution.old.lines.p (drawn (C.target_list coins.now) (C.order_list coins.now)) turns.now) }
{
    forecast.begin(distribution.lines.plan());
    for attempt in 0..attempts(distribution.lines.plan()) {
        match forecast.attempt(distribution, coins, attempt, turns.list(attempt)) {
            Verdict::Good => {
                forecast.scan(distribution.lines.plan(), attempt);
                forecast.scan(distribution.lines.plan(), attempt);
                return;
            }
            _ => {}
        }
    }
}
