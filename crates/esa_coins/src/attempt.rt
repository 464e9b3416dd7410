//! The lists of one attempt, as a coins file has them.

ghost use Rattle.std.specs.Prelude.{◌≡◌, ◌+◌, ◌≤◌, ◌<◌, ◌^◌, map, length, take, drop, slice_index_or, is_some, [], MatchResult};
ghost use Rattle.std.specs.List.{list_all};
ghost use Rattle.serde_json.specs.Find.{as_object};
ghost use Rattle.serde_json.specs.View.{view};
ghost use Rattle.esa_coins.specs.Table.{Gives, and_then, each, attempts_in, table_in};

use crate::CoinsRefused;
use crate::lists::{list_in, orders_in, targets_in};
use esa_params::Plan;
use serde_json::Value;
use std::alloc::Global;

/// The lists of one attempt: a target for each place of the batch, and an order for each bucket.
#[derive(Drop)]
pub(crate) struct Attempt {
    targets: Vec<u32>,
    orders: Vec<Vec<u32>>,
}

impl Attempt {
    ghost use Rattle.esa_coins.specs.Attempt.{table_of};

    /// The lists of an attempt, from its object.
    fn read(
        alloc: Global,
        plan: &Plan,
        attempt: u32,
        object: &Value,
    ) -> Result<Attempt, CoinsRefused>
        ensures { Gives table_of (table_in plan.now attempt (view object.now)) result }
    {
        let targets = targets_in(alloc, plan, attempt, object.get("targets"))?;
        let orders = orders_in(alloc, plan, attempt, object.get("orders"))?;
        Ok(Attempt { targets, orders })
    }

    /// The lists of each attempt, from their objects.
    fn read_each(
        alloc: Global,
        plan: &Plan,
        objects: &[Value],
    ) -> Result<Vec<Attempt>, CoinsRefused>
        requires { length objects.now < 2 ^ 32 }
        ensures { Gives (λ attempts. map table_of attempts.items) (each (table_in plan.now) 0 (map view objects.now)) result }
    {
        let mut attempts = Vec::with_capacity(alloc, objects.len())?;
        for (attempt, object) in objects.iter().enumerate() {
            let lists = Attempt::read(alloc, plan, attempt as u32, object)?;
            attempts.push(lists)?;
        }
        Ok(attempts)
    }

    /// The lists of all attempts, from the object that a coins file is.
    pub(crate) fn read_all(
        alloc: Global,
        plan: &Plan,
        object: &Value,
    ) -> Result<Vec<Attempt>, CoinsRefused>
        ensures { Gives (λ attempts. map table_of attempts.items)
            (and_then (attempts_in (plan.now).attempts (view object.now)) (each (table_in plan.now) 0)) result }
    {
        let objects = attempts_in(plan.attempts(), object)?;
        Attempt::read_each(alloc, plan, objects)
    }

    /// Copies the targets from a first place on.
    pub(crate) fn copy_targets(&self, first: usize, out: &mut [u32])
        requires { first + length out.old ≤ length (table_of self.now).targets }
        ensures { out.new ≡ take (length out.old) (drop first (table_of self.now).targets) }
    {
        out.copy_from_slice(&self.targets[first..first + out.len()]);
    }

    /// Copies the order of a target.
    pub(crate) fn copy_order(&self, target: usize, out: &mut [u32])
        requires there { target < length (table_of self.now).orders }
        requires room { length out.old ≡ length (slice_index_or (table_of self.now).orders target []) }
        ensures { out.new ≡ slice_index_or (table_of self.now).orders target [] }
    {
        out.copy_from_slice(self.orders[target].as_slice());
    }
}

fn are_objects(values: &[Value]) -> bool
    ensures { result ≡ list_all (λ value. is_some (as_object (view value))) values.now }
{
    values.iter().all(Value::is_object)
}

/// The objects of so many attempts.
fn attempts_in(count: u32, object: &Value) -> Result<&[Value], CoinsRefused>
    ensures { let wanted = attempts_in count (view object.now) in
        MatchResult result (λ objects. wanted ≡ Ok (map view objects.now)) (λ error. wanted ≡ Err error) }
{
    let values = list_in(count, CoinsRefused::Shape, object.get("attempts"))?;
    if are_objects(values) {
        Ok(values)
    } else {
        Err(CoinsRefused::Shape)
    }
}
