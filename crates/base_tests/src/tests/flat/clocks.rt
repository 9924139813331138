//! Crossings, cuts and saved clocks that were worked out by hand.
use super::super::asserts::{assert_found, assert_holds};
use super::samples::numbers;
use bucket_clock::{Clock, MAX_BUCKET};
use flat_form::{Flat, FlatError, Items, rebuild};
use std::alloc::{AllocError, Global};

const SECOND: u64 = 1_000_000_000;

// A day, in nanoseconds.
const DAY: u64 = 86_400_000_000_000;

// What a frame crosses: the start and the first end, how many full buckets after it, and their size.
type Crossed = Option<(u64, u64, u64, u64)>;

// Whether the clock sees a frame, and answers this.
fn sees(clock: &mut Clock, time: u64, is_pull: bool, crossed: Crossed) -> bool {
    if time < clock.part_start() || time >= 1 << 63 {
        return false;
    }
    match clock.crossings(time, is_pull) {
        Some(at) => crossed == Some((at.start, at.first_end, at.full_buckets, at.size)),
        None => crossed.is_none(),
    }
}

// Whether a cut at this time closes a part from this start.
fn cuts(clock: &mut Clock, time: u64, start: u64) -> bool {
    if time < clock.part_start() || time >= 1 << 63 || time > clock.next_end() {
        return false;
    }
    let (from, to) = clock.cut_at(time);
    from == start && to == time
}

// Whether these are the numbers of the clock.
fn is_at(clock: &Clock, base: u64, size: u64, start: u64, next_end: u64) -> bool {
    clock.base() == base
        && clock.bucket_size() == size
        && clock.part_start() == start
        && clock.next_end() == next_end
}

// The times of frames, whether they are pulls, and what they cross.
const FRAMES: &[(u64, bool, Crossed)] = &[
    (4 * SECOND, false, None),
    // Over several ends at once, with a quarter of a bucket to spare.
    (34 * SECOND, false, Some((0, 8 * SECOND, 3, 8 * SECOND))),
    // A pull at an end belongs to the bucket, and the next frame there crosses the end.
    (40 * SECOND, true, None),
    (
        40 * SECOND,
        false,
        Some((32 * SECOND, 40 * SECOND, 0, 8 * SECOND)),
    ),
    (40 * SECOND, false, None),
    // A pull after an end crosses it.
    (
        48 * SECOND + 1,
        true,
        Some((40 * SECOND, 48 * SECOND, 0, 8 * SECOND)),
    ),
    (
        64 * SECOND,
        true,
        Some((48 * SECOND, 56 * SECOND, 0, 8 * SECOND)),
    ),
];

#[test]
fn frames_cross_the_ends_before_them(rt: HostRuntime) {
    let mut clock = Clock::new(0, 8 * SECOND);
    for &(time, is_pull, crossed) in FRAMES {
        assert_holds(&rt, sees(&mut clock, time, is_pull, crossed), &time);
    }
    assert!(rt; is_at(&clock, 0, 8 * SECOND, 56 * SECOND, 64 * SECOND));
}

#[test]
fn the_longest_jump_is_one_division(rt: HostRuntime) {
    let mut clock = Clock::new(0, SECOND);
    let crossed = Some((0, SECOND, 4_611_686_017, SECOND));
    assert!(rt; sees(&mut clock, 1 << 62, false, crossed));
    let mut late = Clock::new((1 << 63) - 1, DAY);
    assert!(rt; sees(&mut late, (1 << 63) - 1, false, None));
    assert!(rt; late.next_end() == (1 << 63) - 1 + DAY);
    let mut whole = Clock::new(0, 1);
    let crossed = Some((0, 1, (1 << 63) - 2, 1));
    assert!(rt; sees(&mut whole, (1 << 63) - 1, false, crossed));
    assert!(rt; whole.next_end() == 1 << 63);
}

// Whether the clock keeps its full end over cuts at 7, and at 13 leaves a part of length 0, since no frame crossed the
// end yet.
fn keeps_the_full_end(clock: &mut Clock) -> bool {
    cuts(clock, 7, 3)
        && cuts(clock, 7, 7)
        && sees(clock, 13, true, None)
        && cuts(clock, 13, 7)
        && is_at(clock, 3, 10, 13, 13)
        && sees(clock, 13, false, Some((13, 13, 0, 10)))
}

#[test]
fn a_cut_keeps_the_full_end(rt: HostRuntime) {
    let mut clock = Clock::new(3, 10);
    assert!(rt; keeps_the_full_end(&mut clock));
    assert!(rt; is_at(&clock, 3, 10, 13, 23));
}

// Four numbers, and whether they are a clock's.
const ROWS: &[(u64, u64, u64, u64, bool)] = &[
    (3, 10, 3, 13, true),
    (3, 10, 13, 13, true),
    (3, 10, 13, 23, true),
    (3, 10, 12, 23, false),
    (3, 10, 2, 13, false),
    (3, 10, 14, 13, false),
    (3, 10, 3, 3, false),
    (3, 10, 15, 24, false),
    (3, 10, 13, 3, false),
    (3, 0, 3, 3, false),
    (0, DAY, 0, DAY, true),
    (0, DAY + 1, 0, DAY + 1, false),
    (1 << 63, 10, 1 << 63, (1 << 63) + 10, false),
    ((1 << 63) - 10, 10, 1 << 63, 1 << 63, false),
    ((1 << 63) - 10, 10, (1 << 63) - 1, 1 << 63, true),
];

fn is_bad(alloc: Global, items: &Items, place: usize) -> bool {
    matches!(Clock::build(alloc, items, place), Err(FlatError::Bad))
}

// Whether these items build a clock of these numbers.
fn is_built(alloc: Global, items: &Items, base: u64, size: u64, start: u64, next_end: u64) -> bool {
    match Clock::build(alloc, items, 0) {
        Ok((clock, next)) => next == 4 && is_at(&clock, base, size, start, next_end),
        Err(_) => false,
    }
}

// Whether these four numbers build a clock, and else nothing at all.
fn is_judged(
    alloc: Global,
    base: u64,
    size: u64,
    start: u64,
    next_end: u64,
    is_clock: bool,
) -> Result<bool, AllocError> {
    let items = numbers(alloc, &[base, size, start, next_end])?;
    Ok(if is_clock {
        is_built(alloc, &items, base, size, start, next_end)
    } else {
        is_bad(alloc, &items, 0)
    })
}

// Whether these four numbers are restored as a clock, and else as none.
fn is_restored(base: u64, size: u64, start: u64, next_end: u64, is_clock: bool) -> bool {
    match Clock::restore(base, size, start, next_end) {
        Some(clock) => is_clock && is_at(&clock, base, size, start, next_end),
        None => !is_clock,
    }
}

// Whether three numbers build no clock, from the first and after the last.
fn are_three_bad(alloc: Global) -> Result<bool, AllocError> {
    let items = numbers(alloc, &[3, 10, 3])?;
    Ok(is_bad(alloc, &items, 0) && is_bad(alloc, &items, 3))
}

#[test]
fn restores_and_builds_what_a_clock_may_be(rt: HostRuntime) {
    assert!(rt; MAX_BUCKET == DAY);
    for &(base, size, start, next_end, is_clock) in ROWS {
        assert_holds(
            &rt,
            is_restored(base, size, start, next_end, is_clock)
                && is_judged(rt.alloc(), base, size, start, next_end, is_clock) == Ok(true),
            &(base, size, start, next_end),
        );
    }
    assert_found(&rt, are_three_bad(rt.alloc()), &"three numbers");
}

// Whether a clock is rebuilt with these numbers.
fn is_rebuilt(
    alloc: Global,
    clock: &Clock,
    base: u64,
    size: u64,
    start: u64,
    next_end: u64,
) -> bool {
    match rebuild(alloc, clock) {
        Ok(copy) => is_at(&copy, base, size, start, next_end),
        Err(_) => false,
    }
}

#[test]
fn a_clock_is_rebuilt(rt: HostRuntime) {
    let mut clock = Clock::new(3, 10);
    assert!(rt; cuts(&mut clock, 7, 3));
    assert!(rt; is_rebuilt(rt.alloc(), &clock, 3, 10, 7, 13));
}
