//! The places of rows, sorted by their rows.

ghost use Rattle.std.specs.Prelude.{◌≡◌, ◌≤◌, ◌<◌, ◌^◌, length, vec_capacity};
ghost use Rattle.std.specs.List.Sorted.{IsPermutation, IsSorted};
ghost use Rattle.esa_params.specs.Sizes.{below};
ghost use Rattle.esa_crowds.specs.Rows.{by_place};

use crate::row::Row;
use std::cmp::Ordering;

/// Compares the rows at two places.
fn compared(rows: &[Row], one: u32, other: u32) -> Ordering
    ensures { result ≡ by_place rows.now one other }
{
    rows.get(one as usize).cmp(&rows.get(other as usize))
}

/// Replaces the places by those of all rows, in rising order.
fn fill(rows: &[Row], order: &mut Vec<u32>)
    requires few { length rows.now < 2 ^ 32 }
    requires room { length rows.now ≤ vec_capacity order.old }
    ensures places { order.new.items ≡ below (length rows.now) }
    ensures room { vec_capacity order.new ≡ vec_capacity order.old }
{
    order.clear();
    for place in 0..rows.len() {
        order.push_reserved(place as u32);
    }
}

/// Replaces the places by those of all rows, in the order of the rows.
pub(crate) fn sort(rows: &[Row], order: &mut Vec<u32>)
    requires few { length rows.now < 2 ^ 32 }
    requires room { length rows.now ≤ vec_capacity order.old }
    ensures permutation { IsPermutation (below (length rows.now)) order.new.items }
    ensures sorted { IsSorted (by_place rows.now) order.new.items }
    ensures room { vec_capacity order.new ≡ vec_capacity order.old }
{
    fill(rows, order);
    order.sort_unstable_by(|one, other| compared(rows, *one, *other));
}
