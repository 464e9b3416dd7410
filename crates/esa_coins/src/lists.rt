//! The lists of a coins file: targets and orders, and what each is refused for.

ghost use Rattle.std.specs.Prelude.{◌≡◌, ◌^◌, ◌<◌, map, option_map, ok_or, nat_lt, length, All, IfOk, MatchResult};
ghost use Rattle.serde_json.specs.View.{view};
ghost use Rattle.esa_json.specs.Values.{number_in};
ghost use Rattle.esa_coins.specs.Table.{Gives, each, only_if, list_in, numbers_in, targets_in, order_in, orders_in};

use crate::CoinsRefused;
use crate::orders::{import_places, is_order};
use esa_json::{number_in, values_in};
use esa_params::Plan;
use serde_json::Value;
use std::alloc::{AllocError, Global};

/// The values of a JSON list of `count` values.
pub(crate) fn list_in(
    count: u32,
    refused: CoinsRefused,
    value: Option<&Value>,
) -> Result<&[Value], CoinsRefused>
    ensures { let wanted = list_in count refused (option_map (λ value. view value.now) value.entry) in
        MatchResult result (λ values. wanted ≡ Ok (map view values.now)) (λ error. wanted ≡ Err error) }
{
    let Some(value) = value else {
        return Err(refused);
    };
    let Some(values) = values_in(value) else {
        return Err(refused);
    };
    if values.len() == count as usize {
        Ok(values)
    } else {
        Err(refused)
    }
}

/// The whole numbers that the values are.
fn whole_numbers(
    alloc: Global,
    refused: CoinsRefused,
    values: &[Value],
) -> Result<Vec<u64>, CoinsRefused>
    ensures { Gives (λ numbers. numbers.items) (each (λ _ number. ok_or (number_in number) refused) 0 (map view values.now)) result }
{
    let mut numbers = Vec::with_capacity(alloc, values.len())?;
    for value in values {
        let Some(number) = number_in(value) else {
            return Err(refused);
        };
        numbers.push(number)?;
    }
    Ok(numbers)
}

/// `count` whole numbers, each from 0 to 2^64 - 1.
fn numbers_in(
    alloc: Global,
    count: u32,
    refused: CoinsRefused,
    value: Option<&Value>,
) -> Result<Vec<u64>, CoinsRefused>
    ensures { Gives (λ numbers. numbers.items) (numbers_in count refused (option_map (λ value. view value.now) value.entry)) result }
{
    let values = list_in(count, refused, value)?;
    whole_numbers(alloc, refused, values)
}

/// The numbers as targets, which are below the number of buckets.
fn targets_below(
    alloc: Global,
    buckets: u32,
    attempt: u32,
    numbers: &[u64],
) -> Result<Vec<u32>, CoinsRefused>
    requires { length numbers.now < 2 ^ 32 }
    ensures { Gives (λ targets. targets.items)
        (each (λ place target. only_if (nat_lt target buckets) target (CoinsRefused.Target attempt place)) 0 numbers.now) result }
{
    let mut targets = Vec::with_capacity(alloc, numbers.len())?;
    for (place, number) in numbers.iter().enumerate() {
        if *number >= u64::from(buckets) {
            return Err(CoinsRefused::Target {
                attempt,
                place: place as u32,
            });
        }
        targets.push(*number as u32)?;
    }
    Ok(targets)
}

/// The targets of an attempt: one for each record, in the order of places.
pub(crate) fn targets_in(
    alloc: Global,
    plan: &Plan,
    attempt: u32,
    value: Option<&Value>,
) -> Result<Vec<u32>, CoinsRefused>
    ensures { Gives (λ targets. targets.items) (targets_in plan.now attempt (option_map (λ value. view value.now) value.entry)) result }
{
    let numbers = numbers_in(alloc, plan.n(), CoinsRefused::Targets(attempt), value)?;
    targets_below(alloc, plan.b(), attempt, numbers.as_slice())
}

/// The numbers as numbers of 32 bits, which they are.
fn narrowed(alloc: Global, numbers: &[u64]) -> Result<Vec<u32>, AllocError>
    requires { All (λ number. number < 2 ^ 32) numbers.now }
    ensures { IfOk result (λ narrow. narrow.items ≡ numbers.now) }
{
    let mut narrow = Vec::with_capacity(alloc, numbers.len())?;
    for number in numbers {
        narrow.push(*number as u32)?;
    }
    Ok(narrow)
}

/// The order of a bucket: a permutation of the places of an import.
fn order_in(
    alloc: Global,
    plan: &Plan,
    attempt: u32,
    bucket: u32,
    value: &Value,
) -> Result<Vec<u32>, CoinsRefused>
    ensures { Gives (λ order. order.items) (order_in plan.now attempt bucket (view value.now)) result }
{
    let refused = CoinsRefused::Order { attempt, bucket };
    let places = import_places(plan);
    let numbers = numbers_in(alloc, places, refused, Some(value))?;
    let numbers = numbers.as_slice();
    let holds = is_order(alloc, places, numbers)?;
    if !holds {
        return Err(refused);
    }
    Ok(narrowed(alloc, numbers)?)
}

/// The orders of buckets, from bucket 0 on.
fn each_order(
    alloc: Global,
    plan: &Plan,
    attempt: u32,
    values: &[Value],
) -> Result<Vec<Vec<u32>>, CoinsRefused>
    requires { length values.now < 2 ^ 32 }
    ensures { Gives (λ orders. map (λ order. order.items) orders.items) (each (order_in plan.now attempt) 0 (map view values.now)) result }
{
    let mut orders = Vec::with_capacity(alloc, values.len())?;
    for (bucket, value) in values.iter().enumerate() {
        let order = order_in(alloc, plan, attempt, bucket as u32, value)?;
        orders.push(order)?;
    }
    Ok(orders)
}

/// The orders of an attempt: one for each bucket.
pub(crate) fn orders_in(
    alloc: Global,
    plan: &Plan,
    attempt: u32,
    value: Option<&Value>,
) -> Result<Vec<Vec<u32>>, CoinsRefused>
    ensures { Gives (λ orders. map (λ order. order.items) orders.items) (orders_in plan.now attempt (option_map (λ value. view value.now) value.entry)) result }
{
    let refused = CoinsRefused::Order { attempt, bucket: 0 };
    let values = list_in(plan.b(), refused, value)?;
    each_order(alloc, plan, attempt, values)
}
