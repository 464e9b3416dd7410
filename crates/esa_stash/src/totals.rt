//! How many items an exchange would leave, by lengths alone.

ghost use Rattle.std.specs.Prelude.{◌≡◌, ◌<◌, ◌^◌, All, map, sum_by, length};
ghost use Rattle.esa_stash.specs.Sizes.{below};
ghost use Rattle.esa_stash.specs.Dealing.{arrivals, left_after};

use crate::cells::Cells;

/// Counts how often each target comes.
pub fn count_targets(targets: &[u32], counts: &mut [u64])
    requires { All (λ target. target < length counts.old) targets.now }
    ensures { counts.new ≡ map (arrivals targets.now) (below (length counts.old)) }
{
    counts.fill(0);
    for target in targets {
        counts[*target as usize] += 1;
    }
}

/// How many items stay queued for all targets, where so many come for each and up to `c` leave.
pub fn total_after(cells: &Cells, targets: u32, c: u32, arriving: &[u64]) -> u64
    requires chains { length cells.now.chains ≡ targets }
    requires counts { length arriving.now ≡ targets }
    requires small { All (λ count. count < 2 ^ 63) arriving.now }
    requires fits { sum_by (left_after cells.now c arriving.now) (below targets) < 2 ^ 64 }
    ensures { result ≡ sum_by (left_after cells.now c arriving.now) (below targets) }
{
    let mut total = 0;
    for target in 0..targets {
        let line = u64::from(cells.length(target)) + arriving[target as usize];
        total += line.saturating_sub(u64::from(c));
    }
    total
}
