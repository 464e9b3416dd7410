//! Coins that are read from a file.

ghost use Rattle.std.specs.Prelude.{◌≡◌, true, map};
ghost use Rattle.esa_params.specs.Sizes.{ArePlanned};
ghost use Rattle.esa_coins.specs.Attempt.{table_of};
ghost use Rattle.esa_coins.specs.Table.{are_tables};

use crate::CoinsRefused;
use crate::attempt::Attempt;
use esa_json::read_object;
use esa_params::Plan;
use esa_spec::Coins;
use std::alloc::Global;

/// Coins that are read from a coins file.
#[derive(Drop)]
pub struct TableCoins {
    plan: Plan,
    attempts: Vec<Attempt>,
    ghost planned: { ArePlanned plan },
    ghost drawn: { are_tables plan (map table_of attempts.items) ≡ true },
}

impl TableCoins {
    ghost use Rattle.std.specs.Prelude.{IfOk};
    ghost use Rattle.esa_coins.specs.Table.{Gives, tables_in};
    ghost use Rattle.esa_coins.specs.TableCoins.{plan_of, tables_of};

    /// Reads the coins of a plan from the bytes of a coins file.
    ///
    /// It is a JSON object whose field `attempts` is a list of as many objects as the plan has attempts. Each has
    /// `targets`, a list of a number below B for each of the N places, and `orders`, a list of B permutations of the
    /// numbers below `B * C + K`. Other fields are ignored. A file is refused for the first of these that fails: its
    /// shape, and then, attempt by attempt, that the targets are N whole numbers, each of them, and each order.
    pub fn read(alloc: Global, bytes: &[u8], plan: Plan) -> Result<TableCoins, CoinsRefused>
        ensures first_refusal { Gives tables_of (tables_in plan bytes.now) result }
        ensures plan { IfOk result (λ coins. plan_of coins ≡ plan) }
    {
        let object = match read_object(alloc, bytes) {
            Ok(Some(object)) => object,
            Ok(None) => return Err(CoinsRefused::Shape),
            Err(_) => return Err(CoinsRefused::OutOfMemory),
        };
        let _records = plan.n();
        let attempts = Attempt::read_all(alloc, &plan, &object)?;
        Ok(TableCoins { plan, attempts })
    }
}

impl Coins for TableCoins {
    ghost use Rattle.esa_coins.specs.Table.{targets_at, order_at};
    ghost use Rattle.esa_coins.specs.TableCoins.{tables_of};
    ghost use Rattle.esa_coins.specs.TableLaws as laws;

    ghost plan = { λ coins. coins.plan };

    ghost target_list = { λ coins. targets_at coins.plan (tables_of coins) };

    ghost order_list = { λ coins. order_at (tables_of coins) };

    ghost target_for_each = { λ coins attempt bucket planned _. laws.target_for_each coins.plan (tables_of coins) coins.drawn attempt bucket planned };

    ghost targets_below = { λ coins attempt bucket planned _. laws.targets_below coins.plan (tables_of coins) coins.drawn attempt bucket planned };

    ghost orders_permute = { λ coins attempt target planned bucket. laws.orders_permute coins.plan (tables_of coins) coins.drawn attempt target planned bucket };

    fn plan(&self) -> Plan {
        self.plan
    }

    fn targets(&self, attempt: u32, bucket: u32, _room: &mut [u32], out: &mut [u32]) {
        let first = self.plan.first(bucket) as usize;
        self.attempts[attempt as usize].copy_targets(first, out);
    }

    fn order(&self, attempt: u32, bucket: u32, out: &mut [u32]) {
        self.attempts[attempt as usize].copy_order(bucket as usize, out);
    }
}
