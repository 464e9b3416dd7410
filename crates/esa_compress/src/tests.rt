//! The window at its bounds, with an order that isn't the identity.

use crate::{Full, Starved, Window};
use esa_report::{Item, Kind};
use std::alloc::{AllocError, Global};
use std::test::Fail;

/// A real item with a number, which isn't 0.
fn real(number: u8) -> Item {
    Item {
        kind: Kind::Real,
        body: [number; 264],
    }
}

/// The numbers of items, and 0 for one whose body is zero.
fn numbers(alloc: Global, items: &[Item]) -> Result<Vec<u8>, AllocError> {
    let mut numbers = Vec::new(alloc);
    for item in items {
        numbers.push(item.body[263])?;
    }
    Ok(numbers)
}

/// The import of target 0 of the worked shuffle whose order is 2, 0, 1, 3: the places 0 and 1, the place 3 and a dummy.
/// The queue has room for four items, and the import of target 1 fills it.
#[test]
fn arranged(rt: HostRuntime) -> Result<(), Fail> {
    let alloc = rt.alloc();
    let mut window = Window::make(alloc, 4)?;
    let first = [real(10), real(11), real(13), Item::dummy()];
    assert_eq!(rt; window.import(&first, &[2, 0, 1, 3]), Ok(()));
    let second = [
        Item::dummy(),
        Item::dummy(),
        Item::malformed(),
        Item::dummy(),
    ];
    assert_eq!(rt; window.import(&second, &[0, 1, 2, 3]), Ok(()));
    let full = Full { held: 4, more: 1 };
    assert_eq!(rt; window.import(&second, &[0, 1, 2, 3]), Err(full));
    let mut out = [Item::dummy(); 4];
    assert_eq!(rt; window.take(&mut out), Ok(()));
    assert_eq!(rt;
        numbers(alloc, &out)?.as_slice(),
        [13, 10, 11, 0].as_slice()
    );
    assert!(rt; out[3].kind == Kind::Malformed);
    Ok(())
}

/// Three items are asked for where two are held, and two are taken. Then none is held, and none can be taken.
#[test]
fn starved(rt: HostRuntime) -> Result<(), Fail> {
    let alloc = rt.alloc();
    let mut window = Window::make(alloc, 3)?;
    assert_eq!(rt; window.import(&[real(10), real(11)], &[1, 0]), Ok(()));
    let mut out = [real(9); 3];
    assert_eq!(rt; window.take(&mut out), Err(Starved { held: 2 }));
    assert_eq!(rt; numbers(alloc, &out)?.as_slice(), [9, 9, 9].as_slice());
    assert_eq!(rt; window.take(&mut out[..2]), Ok(()));
    assert_eq!(rt; numbers(alloc, &out)?.as_slice(), [11, 10, 9].as_slice());
    assert_eq!(rt; window.take(&mut out[..1]), Err(Starved { held: 0 }));
    assert_eq!(rt; window.take(&mut []), Ok(()));
    Ok(())
}

/// A window that is cleared has its whole room again.
#[test]
fn cleared(rt: HostRuntime) -> Result<(), Fail> {
    let alloc = rt.alloc();
    let mut window = Window::make(alloc, 2)?;
    assert_eq!(rt; window.import(&[real(10), real(11)], &[0, 1]), Ok(()));
    window.clear();
    assert_eq!(rt; window.len(), 0);
    assert_eq!(rt; window.import(&[real(12), real(13)], &[0, 1]), Ok(()));
    let mut out = [Item::dummy(); 2];
    assert_eq!(rt; window.take(&mut out), Ok(()));
    assert_eq!(rt; numbers(alloc, &out)?.as_slice(), [12, 13].as_slice());
    Ok(())
}
