//! The share records of a database, those of a group side by side.

ghost use Rattle.std.specs.Prelude.{◌≡◌, ◌≢◌, ◌==◌, ◌<◌, ◌≤◌, true, ℕ, All, length, slice_index_or, IfOk};
ghost use Rattle.std.specs.List.{list_any};
ghost use Rattle.std.specs.List.Sorted.{IsSortedByKey};
ghost use Rattle.std.specs.Ordering.{nat_cmp};
ghost use Rattle.std.specs.Cmp.Lexicographic.{slice_cmp};
ghost use Rattle.esa_shares.specs.Share.{is_share};
ghost use Rattle.esa_recovery.specs.declared.members.Member.{Member};
ghost use Rattle.esa_recovery.specs.Members.{value_at, IsMember, AreMembers};

use crate::group::key_of;
use esa_analyser::Db;
use esa_shares::is_share;
use std::alloc::{AllocError, Global};

/// A share record: its group, and the row that it stands in.
#[derive(Clone, Copy)]
pub(crate) struct Member {
    pub(crate) group: [u8; 18],
    pub(crate) row: u32,
}

/// The share records of a database, in the order of the rows.
fn found_in(alloc: Global, db: &Db) -> Result<Vec<Member>, AllocError>
    ensures named { IfOk result (λ found. All (IsMember db.now.database.rows) found.items) }
    ensures whole { IfOk result (λ found. AreMembers db.now.database.rows found.items) }
    ensures all { IfOk result (λ found. (row : ℕ) → row < length db.now.database.rows → is_share (value_at db.now.database.rows row) ≡ true
        → list_any (λ member. member.row == row) found.items ≡ true) }
{
    let mut found = Vec::new(alloc);
    for row in 0..db.rows() {
        let value = db.value(row);
        if is_share(value) {
            let group = key_of(value);
            found.push(Member { group, row })?;
        }
    }
    Ok(found)
}

/// The share records of a database, by rising groups, and those of a group in the order of the rows.
pub(crate) fn members_of(alloc: Global, db: &Db) -> Result<Vec<Member>, AllocError>
    ensures named { IfOk result (λ found. All (IsMember db.now.database.rows) found.items) }
    ensures whole { IfOk result (λ found. AreMembers db.now.database.rows found.items) }
    ensures all { IfOk result (λ found. (row : ℕ) → row < length db.now.database.rows → is_share (value_at db.now.database.rows row) ≡ true
        → list_any (λ member. member.row == row) found.items ≡ true) }
    ensures sorted { IfOk result (λ found. IsSortedByKey (λ member. member.group) (slice_cmp nat_cmp) found.items) }
{
    let mut found = found_in(alloc, db)?;
    found.sort_by_key(
        |member: &Member| -> [u8; 18]
            ensures { result ≡ member.now.group }
        { member.group },
    )?;
    Ok(found)
}

/// How many records at the front are of the group of the first.
pub(crate) fn run_length(found: &[Member]) -> usize
    requires { 0 < length found.now }
    ensures some { 0 < result }
    ensures inside { result ≤ length found.now }
    ensures one { (k : ℕ) (d : Member) → k < result → (slice_index_or found.now k d).group ≡ (slice_index_or found.now 0 d).group }
    ensures end { (d : Member) → result < length found.now → (slice_index_or found.now result d).group ≢ (slice_index_or found.now 0 d).group }
{
    let mut length = 1;
    while length < found.len() && found[length].group == found[0].group {
        length += 1;
    }
    length
}
