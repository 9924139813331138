//! Kept rows through their items.
use flat_form::{Flat, FlatError, Item, Items, rebuild};
use kept_rows::KeptRows;
use sd_base::Seq;
use std::alloc::{AllocError, Global};
use std::test::*;

// So many numbers, each an item.
fn numbers(alloc: Global, numbers: &[u64]) -> Result<Items, AllocError> {
    let mut items = Items::new(alloc);
    for number in numbers {
        items.push(Item::Num(*number))?;
    }
    Ok(items)
}

// Rows of weight 1, as many as are kept, and one more.
fn filled(alloc: Global) -> Result<KeptRows<u64>, AllocError> {
    let mut kept = KeptRows::new(alloc);
    for row in 0..16_385u64 {
        kept.put(row)?;
    }
    Ok(kept)
}

fn is_bad(alloc: Global, items: &Items) -> bool {
    matches!(KeptRows::<u64>::build(alloc, items, 0), Err(FlatError::Bad))
}

#[test]
fn goes_on_after_it_was_rebuilt(rt: HostRuntime) -> Result<(), Fail> {
    let mut kept = KeptRows::new(rt.alloc());
    for row in 0..16_383_u64 {
        kept.put(row)?;
    }
    let mut copy = rebuild(rt.alloc(), &kept)?;
    copy.put(16_383)?;
    copy.put(16_384)?;
    let (rows, others) = copy.take();
    assert!(rt; rows.len() == 16_384 && rows.get(16_383) == Some(&16_383) && others == 1);
    Ok(())
}

#[test]
fn full_rows_are_rebuilt_with_the_number_of_the_others(rt: HostRuntime) -> Result<(), Fail> {
    let kept = filled(rt.alloc())?;
    let mut items = Items::new(rt.alloc());
    kept.flatten(rt.alloc(), &mut items)?;
    assert!(rt; items.len() == 16_387);
    let mut copy = rebuild(rt.alloc(), &kept)?;
    assert!(rt; copy.rows() == kept.rows() && copy.weight() == 16_384 && copy.not_kept() == 1);
    copy.put(0)?;
    assert!(rt; copy.rows().len() == 16_384 && copy.not_kept() == 2);
    Ok(())
}

#[test]
fn builds_the_kept_rows_that_may_be(rt: HostRuntime) -> Result<(), Fail> {
    let rows: [(&[u64], usize, u64); 4] = [
        (&[0, 0, 0], 0, 0),
        (&[0, 5, 0], 0, 5),
        (&[1, 0, 1, 7], 1, 0),
        (&[2, 9, 2, 7, 8], 2, 9),
    ];
    for (row, len, others) in rows {
        let items = numbers(rt.alloc(), row)?;
        let (kept, next) = KeptRows::<u64>::build(rt.alloc(), &items, 0)?;
        assert!(rt;
            kept.rows().len() == len && kept.not_kept() == others,
            "at {row:?}"
        );
        assert!(rt; kept.weight() == row[0] && next == row.len(), "at {row:?}");
    }
    Ok(())
}

#[test]
fn builds_lists_that_weigh_as_many_as_they_have(rt: HostRuntime) -> Result<(), Fail> {
    let rows: [(&[u64], bool); 7] = [
        (&[3, 0, 1, 3, 7, 8, 9], true),
        // one without elements weighs one
        (&[1, 0, 1, 0], true),
        (&[4, 2, 2, 0, 3, 7, 8, 9], true),
        // other weights
        (&[2, 0, 1, 3, 7, 8, 9], false),
        (&[4, 0, 1, 3, 7, 8, 9], false),
        (&[0, 0, 1, 0], false),
        (&[2, 0, 2, 0, 3, 7, 8, 9], false),
    ];
    for (row, is_built) in rows {
        let items = numbers(rt.alloc(), row)?;
        let built = KeptRows::<Seq<u64>>::build(rt.alloc(), &items, 0);
        assert!(rt; built.is_ok() == is_built, "at {row:?}");
    }
    Ok(())
}

#[test]
fn builds_none_that_may_not_be(rt: HostRuntime) -> Result<(), Fail> {
    let rows: [&[u64]; 8] = [
        // more weight than is kept
        &[16_385, 0, 1, 7],
        // rows that weigh less, and more
        &[16_384, 1, 1, 7],
        &[2, 0, 1, 7],
        &[0, 0, 1, 7],
        &[1, 0, 2, 7, 8],
        // rows that are cut, and a head that is
        &[2, 0, 2, 7],
        &[2, 0],
        &[],
    ];
    for row in rows {
        let items = numbers(rt.alloc(), row)?;
        assert!(rt; is_bad(rt.alloc(), &items), "at {row:?}");
    }
    Ok(())
}
