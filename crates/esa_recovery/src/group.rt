//! The shares of a group, and what they give back.

ghost use Rattle.std.specs.Prelude.{◌≡◌, ◌<◌, ◌≤◌, ◌*◌, [], true, ℕ, List, length, slice_index, OnOk, IfOk};
ghost use Rattle.std.specs.Option.{option_map};
ghost use Rattle.esa_shares.specs.Polynomial.{ArePoints, recovered};
ghost use Rattle.esa_shares.specs.Share.{is_share};
ghost use Rattle.esa_recovery.specs.Meaning.{group_of, needed, marked};
ghost use Rattle.esa_recovery.specs.Group.{GroupHas, opening_of, taken_with};

use esa_shares::open_shares;
use std::alloc::{AllocError, Global};

/// What stands before the share in a share record, in bytes.
const HEAD: usize = 19;

/// The shares that were taken of a group, with their points.
#[derive(Drop)]
pub(crate) struct Group {
    points: Vec<u8>,
    shares: Vec<u8>,
}

/// The group of a share record.
pub(crate) fn key_of(value: &[u8]) -> [u8; 18]
    requires share { is_share value.now ≡ true }
    requires short { length value.now ≤ 190 }
    ensures { result ≡ group_of value.now }
{
    let mut key = [
        value[1],
        value.len() as u8,
        0,
        0,
        0,
        0,
        0,
        0,
        0,
        0,
        0,
        0,
        0,
        0,
        0,
        0,
        0,
        0,
    ];
    key[2..].copy_from_slice(&value[3..HEAD]);
    key
}

/// What the shares at the points give back, where it is a value of the mark.
fn open(
    alloc: Global,
    points: &[u8],
    shares: &[u8],
    size: usize,
    mark: &[u8],
) -> Result<Option<Vec<u8>>, AllocError>
    requires some { 0 < length points.now }
    requires points { ArePoints points.now }
    requires whole { length shares.now ≡ length points.now * size }
    ensures { IfOk result (λ secret. option_map (λ bytes. bytes.items) secret ≡ marked mark.now (recovered size points.now shares.now)) }
{
    let mut secret = vec![in alloc; 0; size]?;
    if open_shares(points, shares, mark, &mut secret) {
        Ok(Some(secret))
    } else {
        Ok(None)
    }
}

impl Group {
    /// No shares.
    pub(crate) fn empty(alloc: Global) -> Group {
        Group {
            points: Vec::new(alloc),
            shares: Vec::new(alloc),
        }
    }

    /// Forgets all shares.
    pub(crate) fn clear(&mut self)
        ensures { (group : List ℕ) → GroupHas group [] self.new }
    {
        self.points.clear();
        self.shares.clear();
    }

    /// Takes a share record of the group, where its point is new and a share is wanted.
    pub(crate) fn take(&mut self, value: &[u8]) -> Result<(), AllocError>
        requires share { is_share value.now ≡ true }
        ensures { (taken : List (List ℕ)) → GroupHas (group_of value.now) taken self.old
            → OnOk result (GroupHas (group_of value.now) (taken_with (group_of value.now) taken value.now) self.new) }
    {
        let wanted = usize::from(value[1]);
        let points = self.points.as_slice();
        if points.len() == wanted || points.contains(&value[2]) {
            return Ok(());
        }
        self.points.push(value[2])?;
        self.shares.extend_from_slice(&value[HEAD..])?;
        Ok(())
    }

    /// What the shares that were taken of the group give back.
    pub(crate) fn open(&self, alloc: Global, key: &[u8; 18]) -> Result<Option<Vec<u8>>, AllocError>
        requires some { 0 < needed key.now }
        requires long { 19 < slice_index key.now 1 }
        requires kept { (taken : List (List ℕ)) × GroupHas key.now taken self.now }
        ensures { (taken : List (List ℕ)) → GroupHas key.now taken self.now
            → IfOk result (λ secret. option_map (λ bytes. bytes.items) secret ≡ opening_of key.now taken) }
    {
        let points = self.points.as_slice();
        if points.len() < usize::from(key[0]) {
            return Ok(None);
        }
        let size = usize::from(key[1]) - HEAD;
        open(alloc, points, &self.shares, size, &key[2..])
    }
}
