//! Lanes of counts by key, with their buckets, bounds and reports.
use crate::steps::Step::{Came, Passed, Pull, Report};
use crate::steps::{Shown, Step, run};
use count_metric::CountProducer;
use flat_form::FlatError;
use metric_lane::Lane;
use std::alloc::Global;
use std::test::*;

fn shown<'a>(rows: &'a [(i32, u64, u64, u64)], not_kept: u64, dropped: u64) -> Shown<'a> {
    Shown {
        rows,
        not_kept,
        dropped,
    }
}

// Whether a new lane with buckets of 10 from 3 on, and two keys a part, goes these steps.
fn goes_well(alloc: Global, steps: &[Step]) -> Result<bool, FlatError> {
    let mut lane = Lane::new(3, 10, CountProducer::new(alloc, 3, 10, 2, false));
    Ok(run(alloc, &mut lane, steps)? == steps.len())
}

#[test]
fn drops_what_comes_to_a_full_part_and_admits_anew_in_the_next(
    rt: HostRuntime,
) -> Result<(), Fail> {
    let first = [(1, 3, 13, 2), (2, 3, 13, 1)];
    let second = [(3, 13, 23, 1), (1, 13, 23, 1)];
    let steps = [
        Came(4, 1),
        Came(5, 2),
        Came(6, 3),
        Came(7, 1),
        Came(8, 3),
        Passed(13),
        Report(13, false, shown(&first, 0, 2)),
        Came(14, 3),
        Came(15, 1),
        Came(16, 2),
        Passed(23),
        Report(23, false, shown(&second, 0, 1)),
    ];
    assert!(rt; goes_well(rt.alloc(), &steps)?);
    Ok(())
}

#[test]
fn cuts_at_a_full_end_and_crosses_it_afterwards(rt: HostRuntime) -> Result<(), Fail> {
    let before = [(7, 3, 13, 1)];
    let at_last = [(7, 13, 23, 2)];
    let steps = [
        Came(5, 7),
        Pull(13),
        Report(13, true, shown(&before, 0, 0)),
        Came(13, 7),
        Report(13, false, shown(&[], 0, 0)),
        Came(13, 7),
        Passed(34),
        Report(34, true, shown(&at_last, 0, 0)),
    ];
    assert!(rt; goes_well(rt.alloc(), &steps)?);
    Ok(())
}

#[test]
fn counts_an_arrival_at_an_end_in_the_next_part(rt: HostRuntime) -> Result<(), Fail> {
    let first = [(1, 3, 13, 1)];
    let second = [(1, 13, 20, 1), (2, 13, 20, 1)];
    let third = [(1, 20, 23, 1), (1, 23, 25, 1)];
    let steps = [
        Came(12, 1),
        Came(13, 1),
        Came(20, 2),
        Report(20, false, shown(&first, 0, 0)),
        Report(20, true, shown(&second, 0, 0)),
        Report(20, true, shown(&[], 0, 0)),
        Came(20, 1),
        Came(25, 1),
        Report(25, true, shown(&third, 0, 0)),
    ];
    assert!(rt; goes_well(rt.alloc(), &steps)?);
    Ok(())
}

#[test]
fn jumps_over_many_buckets_at_once(rt: HostRuntime) -> Result<(), Fail> {
    let only = [(1, 3, 13, 1)];
    let steps = [
        Came(5, 1),
        Passed(4_611_686_018_427_387_904),
        Report(4_611_686_018_427_387_904, true, shown(&only, 0, 0)),
    ];
    assert!(rt; goes_well(rt.alloc(), &steps)?);
    Ok(())
}

#[test]
fn without_buckets_nothing_is_crossed_or_cut(rt: HostRuntime) -> Result<(), Fail> {
    let mut lane = Lane::new(3, 0, CountProducer::new(rt.alloc(), 3, 10, 2, false));
    let steps = [
        Came(5, 1),
        Came(50, 2),
        Came(51, 3),
        Report(51, true, shown(&[], 0, 1)),
    ];
    assert!(rt; run(rt.alloc(), &mut lane, &steps)? == 4);
    Ok(())
}

#[test]
fn hands_on_single_calls(rt: HostRuntime) -> Result<(), Fail> {
    let mut lane = Lane::new(3, 10, CountProducer::new(rt.alloc(), 3, 10, 2, false));
    lane.cross(12, false)?;
    lane.condition(12, ())?;
    let only = [(1, 3, 12, 1)];
    let steps = [Came(12, 1), Report(12, true, shown(&only, 0, 0))];
    assert!(rt; run(rt.alloc(), &mut lane, &steps)? == 2);
    Ok(())
}
