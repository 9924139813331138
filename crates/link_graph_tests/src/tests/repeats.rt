//! Lists of ids without repeats.
use distinct::{Distinct, first_repeat};
use std::alloc::{AllocError, Global};
use std::test::*;

#[test]
fn the_first_to_come_again_is_told(rt: HostRuntime) -> Result<(), Fail> {
    assert!(rt; first_repeat::<i64>(rt.alloc(), &[])?.is_none());
    assert_eq!(rt; first_repeat(rt.alloc(), &[7, 8, 8, 7])?, Some(8));
    assert_eq!(rt; first_repeat(rt.alloc(), &[1, -1, 0, -1])?, Some(-1));
    assert!(rt; first_repeat(rt.alloc(), &[1, -1, 0])?.is_none());
    Ok(())
}

// Ids in the order in which they came, each once.
fn of(alloc: Global, ids: &[i64]) -> Result<Distinct<i64>, AllocError> {
    let mut distinct = Distinct::new(alloc);
    for id in ids {
        distinct.add(*id)?;
    }
    Ok(distinct)
}

#[test]
fn an_item_has_its_first_place(rt: HostRuntime) -> Result<(), Fail> {
    let ids = of(rt.alloc(), &[7, -1, 7, 9, -1])?;
    assert!(rt; ids.as_slice() == [7, -1, 9].as_slice());
    assert_eq!(rt; ids.place(&7), Some(0));
    assert_eq!(rt; ids.place(&-1), Some(1));
    assert_eq!(rt; ids.place(&9), Some(2));
    assert_eq!(rt; ids.place(&8), None);
    assert!(rt; ids.contains(&9));
    assert!(rt; !ids.contains(&1));
    Ok(())
}

#[test]
fn many_items_are_looked_up(rt: HostRuntime) -> Result<(), Fail> {
    let mut ids = Distinct::new(rt.alloc());
    for id in 0..50_000 {
        ids.add(id % 40_000)?;
    }
    assert_eq!(rt; ids.as_slice().len(), 40_000);
    assert_eq!(rt; ids.place(&39_999), Some(39_999));
    Ok(())
}
