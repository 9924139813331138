//! When a metric is active.
use metric_activation::{ActBook, Timer};
use sd_base::Seq;
use std::alloc::{AllocError, Global};
use std::test::*;

// A book of at most eight activations that last so long, each at least 1.
fn book_of(alloc: Global, ttls: &[u64]) -> Result<Option<ActBook>, AllocError> {
    let mut timers = Seq::new(alloc);
    for ttl in ttls {
        timers.push(Timer::new(*ttl))?;
    }
    Ok(ActBook::restore(timers))
}

// Tells a book of an atom with these words, one for each activation: `s` starts it, `c` cancels it, `b` does both.
fn tell(book: &mut ActBook, at: u64, words: &str) {
    let bytes = words.as_bytes();
    if bytes.len() != book.timers().len() || bytes.len() > 8 {
        return;
    }
    let mut started = [false; 8];
    let mut cancelled = [false; 8];
    for place in 0..bytes.len() {
        if place < 8 {
            started[place] = bytes[place] == b's' || bytes[place] == b'b';
            cancelled[place] = bytes[place] == b'c' || bytes[place] == b'b';
        }
    }
    let count = book.timers().len();
    if count <= 8 {
        book.apply(at, &started[..count], &cancelled[..count]);
    }
}

// Whether a metric with activations that last so long is active at a time, once it was told this.
fn is_active(
    alloc: Global,
    ttls: &[u64],
    told: &[(u64, &str)],
    now: u64,
) -> Result<bool, AllocError> {
    let Some(mut book) = book_of(alloc, ttls)? else {
        return Ok(false);
    };
    for (at, words) in told {
        tell(&mut book, *at, *words);
    }
    Ok(book.active(now))
}

// Ttls, atoms with what they say, a time, and whether the metric is active then.
const ROWS: &[(&[u64], &[(u64, &str)], u64, bool)] = &[
    (&[], &[], 0, true),
    (&[10], &[], 0, false),
    (&[10], &[(3, "s")], 3, true),
    (&[10], &[(3, "s")], 12, true),
    // the end is exclusive
    (&[10], &[(3, "s")], 13, false),
    // a second start begins anew, and doesn't add up
    (&[10], &[(3, "s"), (8, "s")], 17, true),
    (&[10], &[(3, "s"), (8, "s")], 18, false),
    // a cancel ends it, from its own atom on
    (&[10], &[(3, "s"), (4, "c")], 4, false),
    (&[10], &[(3, "s"), (4, "c"), (5, "s")], 14, true),
    // one atom that starts and cancels cancels
    (&[10], &[(3, "b")], 3, false),
    (&[10], &[(3, "s"), (4, "b")], 4, false),
    // what says nothing changes nothing
    (&[10], &[(3, "s"), (9, "-")], 12, true),
    // one of several is enough, and a cancel of one leaves the others
    (&[10, 20], &[(3, "ss"), (4, "c-")], 22, true),
    (&[10, 20], &[(3, "ss"), (4, "c-")], 23, false),
    (&[10, 20], &[(3, "ss"), (4, "-c")], 12, true),
    (&[1, 1, 1, 1, 1, 1, 1, 1], &[(5, "-------s")], 5, true),
    // at the ends of the numbers
    (
        &[1_000_000_000_000_000],
        &[(9_223_372_036_854_775_807, "s")],
        9_224_372_036_854_775_806,
        true,
    ),
    (
        &[1_000_000_000_000_000],
        &[(9_223_372_036_854_775_807, "s")],
        9_224_372_036_854_775_807,
        false,
    ),
];

#[test]
fn is_active_while_one_is_alive(rt: HostRuntime) -> Result<(), Fail> {
    for (ttls, told, now, active) in ROWS {
        let is = is_active(rt.alloc(), *ttls, *told, *now)?;
        assert!(rt; is == *active, "{ttls:?} {told:?} at {now}");
    }
    Ok(())
}

// Ttls, and whether a book has them.
const BOOKS: &[(&[u64], bool)] = &[
    (&[0], false),
    (&[1, 1_000_000_000_000_000], true),
    (&[1_000_000_000_000_001], false),
    (&[1, 1, 1, 1, 1, 1, 1, 1], true),
    (&[1, 1, 1, 1, 1, 1, 1, 1, 1], false),
    (&[1, 1, 1, 0], false),
];

#[test]
fn has_eight_at_most_and_each_in_range(rt: HostRuntime) -> Result<(), Fail> {
    for (ttls, fits) in BOOKS {
        let book = book_of(rt.alloc(), *ttls)?;
        assert!(rt; book.is_some() == *fits, "{ttls:?}");
    }
    Ok(())
}
