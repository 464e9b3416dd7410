//! What the groups of a database's share records give back.

ghost use Rattle.std.specs.Prelude.{◌≡◌, ◌==◌, ◌<◌, ℕ, None, All, length, if◌then◌else◌, slice_index, IfOk};
ghost use Rattle.std.specs.List.{list_any};
ghost use Rattle.std.specs.Option.{option_map};
ghost use Rattle.esa_analyser.specs.Rows.{AreRising};
ghost use Rattle.esa_recovery.specs.Group.{given_back};
ghost use Rattle.esa_recovery.specs.Members.{IsMember, values_at};
ghost use Rattle.esa_recovery.specs.Groups.{Opens};

use crate::group::Group;
use crate::members::{Member, members_of, run_length};
use esa_analyser::Db;
use std::alloc::{AllocError, Global};

/// What each group gives back, and for the row of each share record the number of its group.
#[derive(Drop)]
pub(crate) struct Groups {
    pub(crate) values: Vec<Option<Vec<u8>>>,
    pub(crate) numbers: Vec<usize>,
}

/// What the records of a group give back.
fn opened(
    alloc: Global,
    db: &Db,
    key: &[u8; 18],
    run: &[Member],
    group: &mut Group,
) -> Result<Option<Vec<u8>>, AllocError>
    requires some { 0 < length run.now }
    requires named { All (IsMember db.now.database.rows) run.now }
    requires one { All (λ member. member.group ≡ key.now) run.now }
    ensures { IfOk result (λ value. option_map (λ bytes. bytes.items) value ≡ given_back key.now (values_at db.now.database.rows run.now)) }
{
    group.clear();
    for member in run {
        group.take(db.value(member.row))?;
    }
    group.open(alloc, key)
}

/// Writes the number of a group at the rows of its records.
fn number_rows(run: &[Member], number: usize, numbers: &mut [usize])
    requires { All (λ member. member.row < length numbers.old) run.now }
    ensures { (row : ℕ) → slice_index numbers.new row ≡ (if list_any (λ member. member.row == row) run.now then number else slice_index numbers.old row) }
{
    for member in run {
        numbers[member.row as usize] = number;
    }
}

/// What the groups of a database give back. Each is opened once, with the first share of each point until they are enough:
/// since the rows rise, these are the least shares of the least points.
pub(crate) fn groups_of(alloc: Global, db: &Db) -> Result<Groups, AllocError>
    requires { AreRising None db.now.database.rows }
    ensures { IfOk result (λ groups. Opens db.now.database.rows groups) }
{
    let found = members_of(alloc, db)?;
    let mut values = Vec::new(alloc);
    let mut numbers = vec![in alloc; 0; db.rows() as usize]?;
    let mut group = Group::empty(alloc);
    let mut start = 0;
    while start < found.len() {
        let rest = &found[start..];
        let run = &rest[..run_length(rest)];
        let value = opened(alloc, db, &rest[0].group, run, &mut group)?;
        number_rows(run, values.len(), &mut numbers);
        values.push(value)?;
        start += run.len();
    }
    Ok(Groups { values, numbers })
}
