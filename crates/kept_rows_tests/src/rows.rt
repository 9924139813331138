//! Which rows are kept, and how many are counted.
use crate::sack::Sack;
use kept_rows::KeptRows;
use sd_base::Seq;
use std::alloc::AllocError;
use std::test::*;

// Puts a row of each weight, numbered from `first` on.
fn put_each(kept: &mut KeptRows<Sack>, first: u64, weights: &[u64]) -> Result<(), AllocError> {
    let mut number = first;
    for weight in weights {
        let sack = Sack {
            number,
            weight: *weight,
        };
        kept.put(sack)?;
        number = number.wrapping_add(1);
    }
    Ok(())
}

// Puts so many rows of weight 1.
fn put_many(kept: &mut KeptRows<u64>, count: u64) -> Result<(), AllocError> {
    for row in 0..count {
        kept.put(row)?;
    }
    Ok(())
}

// Whether these are the numbers of the sacks.
fn are_numbered(sacks: &[Sack], numbers: &[u64]) -> bool {
    if sacks.len() != numbers.len() {
        return false;
    }
    for (sack, number) in sacks.iter().zip(numbers) {
        if sack.number != *number {
            return false;
        }
    }
    true
}

// Whether these rows are kept, and so many others were counted.
fn has(kept: &KeptRows<Sack>, rows: &[u64], used: u64, others: u64) -> bool {
    are_numbered(kept.rows().as_slice(), rows) && kept.weight() == used && kept.not_kept() == others
}

// Whether these rows and this number were handed out.
fn gave(given: &(Seq<Sack>, u64), rows: &[u64], others: u64) -> bool {
    are_numbered(given.0.as_slice(), rows) && given.1 == others
}

#[test]
fn keeps_the_first_rows_that_fit_together(rt: HostRuntime) -> Result<(), Fail> {
    let rows: [(&[u64], &[u64], u64, u64); 8] = [
        (&[], &[], 0, 0),
        (&[16_384], &[7], 16_384, 0),
        (&[16_385], &[], 0, 1),
        (&[8192, 8192], &[7, 8], 16_384, 0),
        (&[8192, 8192, 1], &[7, 8], 16_384, 1),
        // a later, lighter row isn't kept after one that didn't fit
        (&[1, 16_384, 1, 1], &[7], 1, 3),
        (&[16_383, 2, 1], &[7], 16_383, 2),
        (&[100, 100, 18_446_744_073_709_551_615], &[7, 8], 200, 1),
    ];
    for (weights, kept_rows, used, others) in rows {
        let mut kept = KeptRows::new(rt.alloc());
        put_each(&mut kept, 7, weights)?;
        assert!(rt; has(&kept, kept_rows, used, others), "at {weights:?}");
        assert!(rt; kept.is_full() == (others > 0), "at {weights:?}");
    }
    Ok(())
}

#[test]
fn keeps_16384_rows_and_not_one_more(rt: HostRuntime) -> Result<(), Fail> {
    let mut kept = KeptRows::new(rt.alloc());
    put_many(&mut kept, 16_384)?;
    assert!(rt; kept.rows().len() == 16_384 && kept.not_kept() == 0 && !kept.is_full());
    kept.put(0)?;
    assert!(rt; kept.rows().len() == 16_384 && kept.not_kept() == 1 && kept.is_full());
    assert!(rt; kept.rows().get(16_383) == Some(&16_383));
    Ok(())
}

#[test]
fn counts_many_rows_at_once(rt: HostRuntime) -> Result<(), Fail> {
    let mut kept = KeptRows::new(rt.alloc());
    put_each(&mut kept, 7, &[3, 16_384])?;
    assert!(rt; has(&kept, &[7], 3, 1));
    for (number, others) in [
        (0, 1),
        (4_611_669_633, 4_611_669_634),
        (18_446_744_073_709_551_615, 18_446_744_073_709_551_615),
        (5, 18_446_744_073_709_551_615),
    ] {
        if kept.is_full() {
            kept.pass(number);
        }
        assert!(rt; has(&kept, &[7], 3, others), "at {number}");
    }
    Ok(())
}

#[test]
fn hands_out_once_and_starts_anew(rt: HostRuntime) -> Result<(), Fail> {
    let mut kept = KeptRows::new(rt.alloc());
    put_each(&mut kept, 7, &[16_384, 1, 2])?;
    let given = kept.take();
    assert!(rt; gave(&given, &[7], 2));
    assert!(rt; has(&kept, &[], 0, 0) && !kept.is_full());
    let again = kept.take();
    assert!(rt; gave(&again, &[], 0));
    put_each(&mut kept, 20, &[1, 16_383])?;
    let later = kept.take();
    assert!(rt; gave(&later, &[20, 21], 0));
    Ok(())
}
