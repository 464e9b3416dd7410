//! The counts of a database's rows, by what they mean.

ghost use Rattle.std.specs.Prelude.{◌≡◌, ◌+◌, ◌<◌, ◌^◌, true, Bool, ℕ, List, Option, None, Some, All, length, slice_index, slice_set, IfOk, OnOk, sum_by};
ghost use Rattle.std.specs.FinMap as finite;
ghost use Rattle.esa_recovery.specs.Meaning.{meaning};
ghost use Rattle.esa_recovery.specs.Recovered.{lost, summed};
ghost use Rattle.esa_recovery.specs.Groups.{given, Opens};
ghost use Rattle.esa_recovery.specs.Sums.{counted, tested, tested_groups, plain};

use crate::groups::Groups;
use crate::sums::{Sum, merged};
use esa_analyser::Db;
use esa_shares::is_share;
use std::alloc::{AllocError, Global};

/// The sums of the counts of the rows by the values that they mean, and that of the rows that mean nothing.
#[derive(Drop)]
pub(crate) struct Tally<'a> {
    pub(crate) sums: Vec<Sum<'a>>,
    pub(crate) lost: u32,
}

/// How many reports each group has, and the values that other rows mean.
#[derive(Drop)]
struct Counted<'a> {
    groups: Vec<u32>,
    sums: Vec<Sum<'a>>,
}

/// Adds a count to that of a group.
fn add_at(counts: &mut [u32], number: usize, count: u32)
    requires inside { number < length counts.old }
    requires fits { slice_index counts.old number + count < 2 ^ 32 }
    ensures { counts.new ≡ slice_set counts.old number (slice_index counts.old number + count) }
{
    counts[number] += count;
}

/// Adds a value, where it was reported.
fn put<'a>(sums: &mut Vec<Sum<'a>>, value: &'a [u8], count: u32) -> Result<(), AllocError>
    ensures counted { (test : Option (List ℕ) → Bool)
        → OnOk result (tested test Some (plain sums.new.items) ≡ tested test Some (plain sums.old.items) + counted test (Some value.now) count) }
    ensures some { All (λ row. 0 < row.1) (plain sums.old.items) → OnOk result (All (λ row. 0 < row.1) (plain sums.new.items)) }
{
    if count == 0 {
        return Ok(());
    }
    sums.push(Sum { value, count })?;
    Ok(())
}

/// Counts the share records of each group, and lists the other rows.
fn count_rows<'a>(alloc: Global, db: &'a Db, groups: &Groups) -> Result<Counted<'a>, AllocError>
    requires opens { Opens db.now.database.rows groups.now }
    requires fits { sum_by (λ row. row.1) db.now.database.rows < 2 ^ 32 }
    ensures counted { IfOk result (λ found. (test : Option (List ℕ) → Bool)
        → tested test Some (plain found.sums.items) + tested_groups test (given groups.now) found.groups.items
        ≡ tested test (meaning db.now.database.rows) db.now.database.rows) }
    ensures each { IfOk result (λ found. length found.groups.items ≡ length (given groups.now)) }
    ensures some { IfOk result (λ found. All (λ row. 0 < row.1) (plain found.sums.items)) }
{
    let mut counts = vec![in alloc; 0; groups.values.len()]?;
    let mut sums = Vec::new(alloc);
    let mut left = db.rows();
    while left > 0 {
        left -= 1;
        let value = db.value(left);
        let count = db.count(left);
        if is_share(value) {
            add_at(&mut counts, groups.numbers[left as usize], count);
        } else {
            put(&mut sums, value, count)?;
        }
    }
    Ok(Counted {
        groups: counts,
        sums,
    })
}

/// Adds what the groups gave back, and answers how many reports are of groups that gave nothing.
fn add_groups<'a>(
    groups: &'a Groups,
    counts: &[u32],
    sums: &mut Vec<Sum<'a>>,
) -> Result<u32, AllocError>
    requires each { length counts.now ≡ length (given groups.now) }
    requires fits { tested (λ _. true) Some (plain sums.old.items) + tested_groups (λ _. true) (given groups.now) counts.now < 2 ^ 32 }
    requires some { All (λ row. 0 < row.1) (plain sums.old.items) }
    ensures counted { IfOk result (λ lost. (test : Option (List ℕ) → Bool)
        → tested test Some (plain sums.new.items) + counted test None lost
        ≡ tested test Some (plain sums.old.items) + tested_groups test (given groups.now) counts.now) }
    ensures some { OnOk result (All (λ row. 0 < row.1) (plain sums.new.items)) }
{
    let mut lost = 0;
    for number in 0..counts.len() {
        let count = counts[number];
        match &groups.values[number] {
            Some(value) => put(sums, value, count)?,
            None => lost += count,
        }
    }
    Ok(lost)
}

/// The counts of all rows, by what they mean.
pub(crate) fn tally_of<'a>(
    alloc: Global,
    db: &'a Db,
    groups: &'a Groups,
) -> Result<Tally<'a>, AllocError>
    requires opens { Opens db.now.database.rows groups.now }
    requires fits { sum_by (λ row. row.1) db.now.database.rows < 2 ^ 32 }
    requires some { All (λ row. 0 < row.1) db.now.database.rows }
    ensures sums { IfOk result (λ tally. plain tally.sums.items ≡ finite.entries (summed (meaning db.now.database.rows) db.now.database.rows)) }
    ensures lost { IfOk result (λ tally. tally.lost ≡ sum_by (λ row. lost (meaning db.now.database.rows row.0) row.1) db.now.database.rows) }
{
    let Counted {
        groups: counts,
        mut sums,
    } = count_rows(alloc, db, groups)?;
    let lost = add_groups(groups, &counts, &mut sums)?;
    let sums = merged(alloc, sums)?;
    Ok(Tally { sums, lost })
}
