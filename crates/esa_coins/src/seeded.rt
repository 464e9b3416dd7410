//! Coins that are drawn from a seed.

ghost use Rattle.esa_params.specs.Sizes.{ArePlanned};

use crate::draws::{draw_below, separate, shuffle_below};
use esa_params::{Draw, Plan};
use esa_spec::Coins;

/// Coins that are drawn from a seed of 32 bytes, by ChaCha20.
///
/// Each bucket's targets, each bucket's separators and each target's order have a stream of their own: in attempt a
/// these are the streams `a * 2^32 + b`, `a * 2^32 + 2^17 + b` and `a * 2^32 + 2^16 + b`. No two of them have the same
/// number (`streams_differ`).
#[derive(Clone, Copy, Debug)]
pub struct SeededCoins {
    seed: [u8; 32],
    draw: Draw,
    plan: Plan,
    ghost planned: { ArePlanned plan },
}

impl SeededCoins {
    ghost use Rattle.std.specs.Prelude.{◌≡◌};
    ghost use Rattle.esa_coins.specs.SeededCoins.{seeds_of};

    /// The coins of a seed for a plan. They take no memory.
    pub fn make(seed: [u8; 32], draw: Draw, plan: Plan) -> SeededCoins
        ensures { seeds_of result ≡ record { seed = seed; draw = draw; plan = plan } }
    {
        let _records = plan.n();
        SeededCoins { seed, draw, plan }
    }
}

impl Coins for SeededCoins {
    ghost use Rattle.esa_coins.specs.Seeded.{seeded_targets, seeded_order};
    ghost use Rattle.esa_coins.specs.SeededCoins.{seeds_of};
    ghost use Rattle.esa_coins.specs.SeededLaws as laws;

    ghost plan = { λ coins. coins.plan };

    ghost target_list = { λ coins. seeded_targets (seeds_of coins) };

    ghost order_list = { λ coins. seeded_order (seeds_of coins) };

    ghost target_for_each = { λ coins attempt bucket _ _. laws.target_for_each (seeds_of coins) attempt bucket };

    ghost targets_below = { λ coins attempt bucket _ _. laws.targets_below (seeds_of coins) coins.planned attempt bucket };

    ghost orders_permute = { λ coins attempt target _ _. laws.orders_permute (seeds_of coins) coins.planned attempt target };

    fn plan(&self) -> Plan {
        self.plan
    }

    fn targets(&self, attempt: u32, bucket: u32, room: &mut [u32], out: &mut [u32]) {
        let stream = u64::from(attempt) * (1 << 32) + u64::from(bucket);
        match self.draw {
            Draw::Single => draw_below(self.seed, stream, self.plan.b(), out),
            Draw::Separators => {
                shuffle_below(self.seed, stream + (1 << 17), room);
                separate(room, out);
            }
        }
    }

    fn order(&self, attempt: u32, bucket: u32, out: &mut [u32]) {
        let stream = u64::from(attempt) * (1 << 32) + (1 << 16) + u64::from(bucket);
        shuffle_below(self.seed, stream, out);
    }
}
