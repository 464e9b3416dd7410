//! The places of an import, and whether numbers are an order of them: each place once.

ghost use Rattle.std.specs.Prelude.{◌≡◌, ◌+◌, ◌*◌, ◌↔◌, false, IsTrue, IfOk, length, replicate, IsPermutation};
ghost use Rattle.esa_params.specs.Sizes.{below};
ghost use Rattle.esa_coins.specs.Order.{is_order};

use esa_params::Plan;
use std::alloc::{AllocError, Global};

/// The places of an import: its chunks and its tail.
pub(crate) fn import_places(plan: &Plan) -> u32
    ensures { result ≡ plan.now.b * plan.now.c + plan.now.k }
{
    plan.b() * plan.c() + plan.k()
}

/// Whether the numbers are those below `places`, each once, in any order. It takes one byte for each place.
pub(crate) fn is_order(alloc: Global, places: u32, numbers: &[u64]) -> Result<bool, AllocError>
    ensures value { IfOk result (λ is. is ≡ is_order places numbers.now) }
    ensures permutes { IfOk result (λ is. IsTrue is ↔ IsPermutation (below places) numbers.now) }
{
    if numbers.len() != places as usize {
        return Ok(false);
    }
    let mut seen = vec![in alloc; false; places as usize]?;
    Ok(mark_each(numbers, seen.as_mut_slice()))
}

/// Marks the place of each number, up to the first that has none, or one that is marked already. Whether there is none
/// such.
fn mark_each(numbers: &[u64], seen: &mut [bool]) -> bool
    requires none_seen { seen.old ≡ replicate (length seen.old) false }
    requires as_many { length numbers.now ≡ length seen.old }
    ensures { result ≡ is_order (length seen.old) numbers.now }
{
    for number in numbers {
        if *number >= seen.len() as u64 || seen[*number as usize] {
            return false;
        }
        seen[*number as usize] = true;
    }
    true
}
