//! Coins of either kind.

use crate::{SeededCoins, TableCoins};
use esa_params::Plan;
use esa_spec::Coins;

/// The coins that a job asks for: drawn from its seed, or read from its coins file.
#[derive(Drop)]
pub enum AnyCoins {
    /// Drawn from a seed.
    Seeded(SeededCoins),
    /// Read from a file.
    Table(TableCoins),
}

impl Coins for AnyCoins {
    ghost use Rattle.esa_coins.specs.AnyCoins.{any_plan, any_targets, any_order};
    ghost use Rattle.esa_coins.specs.AnyLaws as laws;

    ghost plan = { λ coins. any_plan coins };

    ghost target_list = { λ coins. any_targets coins };

    ghost order_list = { λ coins. any_order coins };

    ghost target_for_each = { λ coins attempt bucket planned below. laws.target_for_each coins attempt bucket planned below };

    ghost targets_below = { λ coins attempt bucket planned below. laws.targets_below coins attempt bucket planned below };

    ghost orders_permute = { λ coins attempt target planned below. laws.orders_permute coins attempt target planned below };

    fn plan(&self) -> Plan {
        match self {
            AnyCoins::Seeded(coins) => coins.plan(),
            AnyCoins::Table(coins) => coins.plan(),
        }
    }

    fn targets(&self, attempt: u32, bucket: u32, room: &mut [u32], out: &mut [u32]) {
        match self {
            AnyCoins::Seeded(coins) => coins.targets(attempt, bucket, room, out),
            AnyCoins::Table(coins) => coins.targets(attempt, bucket, room, out),
        }
    }

    fn order(&self, attempt: u32, bucket: u32, out: &mut [u32]) {
        match self {
            AnyCoins::Seeded(coins) => coins.order(attempt, bucket, out),
            AnyCoins::Table(coins) => coins.order(attempt, bucket, out),
        }
    }
}
