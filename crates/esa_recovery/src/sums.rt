//! Values with their counts, summed.

ghost use Rattle.std.specs.Prelude.{◌≡◌, ◌≢◌, ◌<◌, ◌≤◌, ◌^◌, ℕ, Some, All, length, sum_by, slice_index_or, IfOk, OnOk};
ghost use Rattle.std.specs.Ordering.{nat_cmp};
ghost use Rattle.std.specs.Cmp.Lexicographic.{slice_cmp};
ghost use Rattle.std.specs.List.Sorted.{IsPermutation, IsSortedByKey};
ghost use Rattle.std.specs.FinMap as finite;
ghost use Rattle.esa_recovery.specs.Recovered.{summed};
ghost use Rattle.esa_recovery.specs.declared.sums.Sum.{Sum};
ghost use Rattle.esa_recovery.specs.Sums.{plain};

use std::alloc::{AllocError, Global};

/// A value, and how many reports of it are counted here.
#[derive(Clone, Copy)]
pub(crate) struct Sum<'a> {
    pub(crate) value: &'a [u8],
    pub(crate) count: u32,
}

/// Puts values in rising order.
fn sort(sums: &mut Vec<Sum<'_>>) -> Result<(), AllocError>
    ensures same { IsPermutation sums.old.items sums.new.items }
    ensures sorted { OnOk result (IsSortedByKey (λ sum. sum.value.now) (slice_cmp nat_cmp) sums.new.items) }
{
    sums.sort_by_key(|sum| sum.value)?;
    Ok(())
}

/// How many at the front have the value of the first.
fn run_length(sums: &[Sum<'_>]) -> usize
    requires { 0 < length sums.now }
    ensures some { 0 < result }
    ensures inside { result ≤ length sums.now }
    ensures one { (k : ℕ) (d : Sum) → k < result → (slice_index_or sums.now k d).value.now ≡ (slice_index_or sums.now 0 d).value.now }
    ensures end { (d : Sum) → result < length sums.now → (slice_index_or sums.now result d).value.now ≢ (slice_index_or sums.now 0 d).value.now }
{
    let mut length = 1;
    while length < sums.len() && sums[length].value == sums[0].value {
        length += 1;
    }
    length
}

/// The sum of the counts.
fn total(sums: &[Sum<'_>]) -> u32
    requires { sum_by (λ sum. sum.count) sums.now < 2 ^ 32 }
    ensures { result ≡ sum_by (λ sum. sum.count) sums.now }
{
    let mut total = 0;
    for sum in sums {
        total += sum.count;
    }
    total
}

/// Each value once, in rising order, with the sum of its counts.
pub(crate) fn merged<'a>(alloc: Global, mut sums: Vec<Sum<'a>>) -> Result<Vec<Sum<'a>>, AllocError>
    requires fits { sum_by (λ row. row.1) (plain sums.items) < 2 ^ 32 }
    requires some { All (λ row. 0 < row.1) (plain sums.items) }
    ensures { IfOk result (λ merged. plain merged.items ≡ finite.entries (summed Some (plain sums.entry.items))) }
{
    sort(&mut sums)?;
    let mut merged = Vec::new(alloc);
    let mut start = 0;
    while start < sums.len() {
        let rest = &sums[start..];
        let run = &rest[..run_length(rest)];
        merged.push(Sum {
            value: rest[0].value,
            count: total(run),
        })?;
        start += run.len();
    }
    Ok(merged)
}
