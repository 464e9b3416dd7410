//! Worked cases of the stash, and a stash that is a plain list of pairs beside it.

use crate::plain::drawn_targets;
use crate::{Overflow, Stash};
use esa_report::{Item, Kind};
use std::alloc::{AllocError, Global};
use std::test::Fail;

/// A real item with a number, which isn't 0.
pub fn real(number: u8) -> Item {
    Item {
        kind: Kind::Real,
        body: [number; 264],
    }
}

/// The stash of the four records of the worked shuffle, at each room for queued items.
#[test]
fn four_records(rt: HostRuntime) -> Result<(), Fail> {
    for room in [2, 1] {
        let mut stash = Stash::make(rt.alloc(), 2, 1, room)?;
        let mut chunks = [Item::malformed(); 2];
        let mut counts = [9; 2];
        let done = stash.exchange(&[0, 0], &[real(10), real(11)], &mut chunks, &mut counts);
        assert!(rt; done.is_ok() && chunks == [real(10), Item::dummy()] && counts == [1, 0]);
        let done = stash.exchange(&[1, 0], &[real(12), real(13)], &mut chunks, &mut counts);
        assert!(rt; done.is_ok() && chunks == [real(11), real(12)] && counts == [1, 1]);
        let mut tail = [Item::malformed(); 1];
        assert!(rt; stash.spill(0, &mut tail) == Ok(1) && tail == [real(13)]);
        assert!(rt; stash.spill(1, &mut tail) == Ok(0) && tail == [Item::dummy()]);
    }
    Ok(())
}

/// An exchange of as many items as the largest batch has, all for one target.
fn exchange_largest(alloc: Global, room: u32) -> Result<Result<(), Overflow>, AllocError> {
    let mut stash = Stash::make(alloc, 1, 1, room)?;
    let targets = drawn_targets(alloc, 0, 262_144, 1)?;
    let items = vec![in alloc; real(10); targets.len()]?;
    let mut chunks = [real(7); 1];
    let mut counts = [9; 1];
    Ok(stash.exchange(&targets, &items, &mut chunks, &mut counts))
}

/// One of the items leaves, and the stash has room for the others or for one fewer.
#[test]
fn largest_batch(rt: HostRuntime) -> Result<(), Fail> {
    let alloc = rt.alloc();
    assert_eq!(rt; exchange_largest(alloc, 262_143)?, Ok(()));
    assert_eq!(rt;
        exchange_largest(alloc, 262_142)?,
        Err(Overflow { total: 262_143 })
    );
    Ok(())
}
