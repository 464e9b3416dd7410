//! Coins whose targets are stored.

ghost use Rattle.std.specs.Prelude.{◌≡◌, ◌+◌, ◌*◌, ◌<◌, ◌↔◌, All, IsSome, IfSome, IsTrue};
ghost use Rattle.esa_params.specs.Sizes.{below};
ghost use Rattle.esa_model.specs.Stored.{IsStored, AreStored};

use esa_params::Plan;
use esa_spec::Coins;

/// Coins with a stored list of targets for each attempt, where every order is as it stands.
///
/// They serve tests and measurements, which want to state what is drawn.
#[derive(Drop)]
pub struct StoredCoins {
    plan: Plan,
    targets: Vec<u32>,
    ghost kept: { IsStored plan targets.items },
}

impl StoredCoins {
    ghost use Rattle.esa_model.specs.StoredCoins.{plan_of, targets_of};

    /// The coins of a plan with these targets, by attempt and place. None exactly where they are not as many as the
    /// places of all attempts, or one of them is no bucket.
    pub fn of(plan: Plan, targets: Vec<u32>) -> Option<StoredCoins>
        ensures accepted { IsSome result ↔ AreStored plan targets.items }
        ensures plan { IfSome result (λ coins. plan_of coins ≡ plan) }
        ensures targets { IfSome result (λ coins. targets_of coins ≡ targets.items) }
    {
        let places = plan.attempts() as usize * plan.n() as usize;
        if targets.len() == places && are_below(&targets, plan.b()) {
            Some(StoredCoins { plan, targets })
        } else {
            None
        }
    }
}

/// Whether each target is a bucket.
fn are_below(targets: &[u32], b: u32) -> bool
    ensures { IsTrue result ↔ All (λ target. target < b) targets.now }
{
    targets.iter().all(|target| *target < b)
}

impl Coins for StoredCoins {
    ghost use Rattle.esa_params.specs.Sizes.{below};
    ghost use Rattle.esa_model.specs.Stored as stored;

    ghost plan = { λ coins. coins.plan };

    ghost target_list = { λ coins. stored.targets_at coins.plan coins.targets.items };

    ghost order_list = { λ coins _ _. below (coins.plan.b * coins.plan.c + coins.plan.k) };

    ghost target_for_each = { λ coins attempt bucket attempt_in _. stored.target_for_each coins.plan coins.targets.items coins.kept attempt bucket attempt_in };

    ghost targets_below = { λ coins attempt bucket _ _. stored.targets_below coins.plan coins.targets.items coins.kept attempt bucket };

    ghost orders_permute = { λ coins _ _ _ _. stored.stays (below (coins.plan.b * coins.plan.c + coins.plan.k)) };

    fn plan(&self) -> Plan {
        self.plan
    }

    fn targets(&self, attempt: u32, bucket: u32, _room: &mut [u32], out: &mut [u32]) {
        let from = attempt as usize * self.plan.n() as usize + self.plan.first(bucket) as usize;
        out.copy_from_slice(&self.targets[from..from + self.plan.size(bucket) as usize]);
    }

    fn order(&self, _attempt: u32, _target: u32, out: &mut [u32]) {
        for (place, number) in out.iter_mut().enumerate() {
            *number = place as u32;
        }
    }
}
