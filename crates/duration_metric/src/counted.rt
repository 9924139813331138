//! What inner keys that were touched make of the tally, and of the active keys.
ghost use Rattle.std.specs.Prelude.{◌≡◌, ◌^◌, ◌<◌, [], ◌∷◌, length, slice_get, IfOk, OnOk, IsPermutation, IsSorted, option_to_list};
ghost use Rattle.std.specs.List.{flat_map};
ghost use Rattle.std.specs.Option.{option_copied};
ghost use Rattle.std.specs.Ordering.{nat_cmp};
ghost use Rattle.bucket_meaning.specs.Guard.{firsts};
ghost use Rattle.bucket_meaning.specs.Limits.{most_keys};
ghost use Rattle.dim_table.specs.Table.{keys};
ghost use Rattle.metric_kinds.specs.Keys.{is_same_key};
ghost use Rattle.duration_metric.specs.Tallies.{out_for, known_key, row_tallied, tally_at, CountsAll, CountsSame, CountsFew, RaisesAll, NewZeros, ZerosAmong, Forgets};
ghost use Rattle.duration_metric.specs.SumSteps.{found_out, outs_at, found_told, found_tallied, tolds_at, fresh_at, with_begun, CountsRight, CountsAt, Recounts, ReleasesAt, ReleasesPlaces, LowersAll};

use crate::inner::Inner;
use crate::sum::Span;
use crate::tally::Tally;
use atom_record::{DimKey, MetricKey};
use dim_table::Guarded;
use predicate_state::Truth;
use sd_base::Seq;
use std::alloc::{AllocError, Global};

/// The places in order.
pub(crate) fn in_order(places: Seq<u64>) -> Result<Vec<u64>, AllocError>
    ensures same { IfOk result (λ sorted. IsPermutation places sorted.items) }
    ensures sorted { IfOk result (λ sorted. IsSorted nat_cmp sorted.items) }
{
    let mut sorted = places.into_vec();
    sorted.sort()?;
    Ok(sorted)
}

// The output key for which an inner key counts.
fn counts_for(row: &Inner) -> Option<&MetricKey>
    ensures { option_to_list (option_copied result) ≡ out_for row.now.count row.now.known }
{
    if row.count == 0 {
        return None;
    }
    let Some(known) = &row.known else {
        return None;
    };
    match known.truth {
        Truth::True => Some(&known.out),
        Truth::Unknown | Truth::False => None,
    }
}

/// The output key for which the row at a place counts.
pub(crate) fn out_at(keys: &Guarded<DimKey, Inner>, place: u64) -> Option<&MetricKey>
    ensures { option_to_list (option_copied result) ≡ found_out (slice_get keys.now.rows place) }
{
    let (_key, row) = keys.pair(place as usize)?;
    counts_for(row)
}

/// There are fewer keys than a count fits.
pub(crate) fn show_few(keys: &[MetricKey])
    ensures { length keys.now < 2 ^ 63 }
{
    let _len = keys.len();
}

/// Takes the rows at some places into the tally. The answer is the places of those that are the first to count for
/// their key.
pub(crate) fn count_all(
    keys: &mut Guarded<DimKey, Inner>,
    tally: &mut Tally,
    places: &[u64],
    alloc: Global,
) -> Result<Seq<u64>, AllocError>
    requires right { CountsRight (tally_at tally.old) keys.old.rows }
    ensures counts { OnOk result (Recounts keys.old keys.new tally.old tally.new places.now []) }
    ensures begins { IfOk result (λ began. outs_at keys.new.rows began
        ≡ firsts is_same_key [] (flat_map (fresh_at (tally_at tally.old) keys.old.rows) places.now)) }
    ensures zeros { OnOk result (NewZeros tally.old tally.new []) }
{
    let mut began = Seq::new(alloc);
    for place in places {
        count_at(keys, tally, &mut began, *place, alloc)?;
    }
    Ok(began)
}

// Takes the row at a place into the tally, unless it is there.
fn count_at(
    keys: &mut Guarded<DimKey, Inner>,
    tally: &mut Tally,
    began: &mut Seq<u64>,
    place: u64,
    alloc: Global,
) -> Result<(), AllocError>
    requires right { CountsRight (tally_at tally.old) keys.old.rows }
    ensures counts { OnOk result
        (CountsAt keys.old keys.new tally.old tally.new began.old began.new place) }
    ensures zeros { OnOk result (NewZeros tally.old tally.new []) }
{
    // There are fewer rows than a count fits.
    let _bound = keys.bound();
    let Some((_key, row)) = keys.pair(place as usize) else {
        return Ok(());
    };
    if row.tallied {
        return Ok(());
    }
    let Some(out) = counts_for(row) else {
        return Ok(());
    };
    let is_first = tally.raise(out, alloc)?;
    let Some(inner) = keys.value_at(place as usize) else {
        return Ok(());
    };
    inner.tallied = true;
    push_if(began, is_first, place)
}

// Puts a place down, where it is one that begins.
fn push_if(began: &mut Seq<u64>, is_first: bool, place: u64) -> Result<(), AllocError>
    ensures { OnOk result (began.new ≡ with_begun began.old is_first place) }
{
    if is_first {
        began.push(place)?;
    }
    Ok(())
}

/// The output key that was told of the row at a place.
pub(crate) fn told_at(keys: &Guarded<DimKey, Inner>, place: u64) -> Option<&MetricKey>
    ensures { option_to_list (option_copied result) ≡ found_told (slice_get keys.now.rows place) }
{
    let (_key, row) = keys.pair(place as usize)?;
    told_of(row)
}

// The output key that was told of an inner key.
fn told_of(row: &Inner) -> Option<&MetricKey>
    ensures { option_to_list (option_copied result) ≡ known_key row.now.known }
{
    let Some(known) = &row.known else {
        return None;
    };
    Some(&known.out)
}

/// Takes the rows at some places that count for no key any more out of the tally.
pub(crate) fn release_all(
    keys: &mut Guarded<DimKey, Inner>,
    tally: &mut Tally,
    places: &[u64],
) -> Result<(), AllocError>
    ensures counts { OnOk result (ReleasesPlaces keys.old keys.new tally.old tally.new places.now []
        (tolds_at keys.old.rows places.now)) }
    ensures zeros { OnOk result (NewZeros tally.old tally.new (tolds_at keys.old.rows places.now)) }
{
    for place in places {
        release_at(keys, tally, *place)?;
    }
    Ok(())
}

// Takes the row at a place out of the tally, if it counts for no key any more.
fn release_at(
    keys: &mut Guarded<DimKey, Inner>,
    tally: &mut Tally,
    place: u64,
) -> Result<(), AllocError>
    ensures counts { OnOk result (ReleasesAt keys.old keys.new tally.old tally.new place) }
    ensures zeros { OnOk result
        (NewZeros tally.old tally.new (found_told (slice_get keys.old.rows place))) }
{
    let Some((_key, row)) = keys.pair(place as usize) else {
        return Ok(());
    };
    let None = counts_for(row) else {
        return Ok(());
    };
    if !row.tallied {
        return Ok(());
    }
    let Some(out) = told_of(row) else {
        return Ok(());
    };
    tally.lower(out)?;
    let Some(inner) = keys.value_at(place as usize) else {
        return Ok(());
    };
    inner.tallied = false;
    Ok(())
}

/// Takes the keys of inner keys that left out of the tally.
pub(crate) fn lower_all(tally: &mut Tally, keys: &[MetricKey]) -> Result<(), AllocError>
    ensures counts { OnOk result (LowersAll tally.old tally.new keys.now) }
    ensures zeros { OnOk result (NewZeros tally.old tally.new keys.now) }
{
    for key in keys {
        tally.lower(key)?;
    }
    Ok(())
}

/// Takes the keys for which none counts any more out of the tally, but for those that have a row.
pub(crate) fn forget_all(tally: &mut Tally, table: &Guarded<MetricKey, Span>, some: &[MetricKey])
    ensures counts { CountsSame tally.old tally.new }
    ensures zeros { Forgets tally.old tally.new some.now (keys table.now) }
{
    for key in some {
        forget_one(tally, table, key);
    }
}

// Takes a key for which none counts any more out of the tally, unless it has a row.
fn forget_one(tally: &mut Tally, table: &Guarded<MetricKey, Span>, key: &MetricKey)
    ensures counts { CountsSame tally.old tally.new }
    ensures zeros { Forgets tally.old tally.new (key.now ∷ []) (keys table.now) }
{
    let None = table.place_of(key) else {
        return;
    };
    tally.forget(key);
}

/// The same for the keys that were told of the rows at some places.
pub(crate) fn forget_tolds(
    tally: &mut Tally,
    table: &Guarded<MetricKey, Span>,
    inner: &Guarded<DimKey, Inner>,
    places: &[u64],
)
    ensures counts { CountsSame tally.old tally.new }
    ensures zeros { Forgets tally.old tally.new
        (tolds_at inner.now.rows places.now) (keys table.now) }
{
    for place in places {
        forget_told(tally, table, inner, *place);
    }
}

// The same for the key that was told of the row at a place.
fn forget_told(
    tally: &mut Tally,
    table: &Guarded<MetricKey, Span>,
    inner: &Guarded<DimKey, Inner>,
    place: u64,
)
    ensures counts { CountsSame tally.old tally.new }
    ensures zeros { Forgets tally.old tally.new
        (found_told (slice_get inner.now.rows place)) (keys table.now) }
{
    let Some(key) = told_at(inner, place) else {
        return;
    };
    forget_one(tally, table, key);
}

/// Takes the keys of a table for which none counts out of the tally, since their rows are closed.
pub(crate) fn forget_rows(tally: &mut Tally, table: &Guarded<MetricKey, Span>)
    ensures counts { CountsSame tally.old tally.new }
    ensures zeros { Forgets tally.old tally.new (keys table.now) [] }
{
    for place in 0..table.len() {
        let Some((key, _span)) = table.pair(place) else {
            return;
        };
        tally.forget(key);
    }
}

/// The tally of the rows that are in it, and of the keys of those that left it.
pub(crate) fn recount(
    keys: &Guarded<DimKey, Inner>,
    gone: &[MetricKey],
    alloc: Global,
) -> Result<Tally, AllocError>
    ensures counts { IfOk result (λ tally. CountsAll (tally_at tally) keys.now.rows gone.now) }
    ensures zeros { IfOk result (λ tally. ZerosAmong tally []) }
{
    let mut tally = Tally::new(alloc);
    raise_rows(&mut tally, keys, alloc)?;
    raise_all(&mut tally, gone, alloc)?;
    Ok(tally)
}

// Counts the rows that are in a tally.
fn raise_rows(
    tally: &mut Tally,
    keys: &Guarded<DimKey, Inner>,
    alloc: Global,
) -> Result<(), AllocError>
    requires none { tally.old ≡ [] }
    ensures counts { OnOk result
        (RaisesAll tally.old tally.new (flat_map row_tallied keys.now.rows)) }
    ensures few { OnOk result (CountsFew tally.new most_keys) }
    ensures zeros { OnOk result (NewZeros tally.old tally.new []) }
{
    // There are fewer rows than a count fits.
    let _bound = keys.bound();
    for place in 0..keys.len() {
        raise_row(tally, keys, place, alloc)?;
    }
    Ok(())
}

// Counts the row at a place, if it is in a tally.
fn raise_row(
    tally: &mut Tally,
    keys: &Guarded<DimKey, Inner>,
    place: usize,
    alloc: Global,
) -> Result<(), AllocError>
    requires few { CountsFew tally.old most_keys }
    ensures counts { OnOk result (RaisesAll tally.old tally.new
        (found_tallied (slice_get keys.now.rows place))) }
    ensures zeros { OnOk result (NewZeros tally.old tally.new []) }
{
    let Some((_key, row)) = keys.pair(place) else {
        return Ok(());
    };
    if !row.tallied {
        return Ok(());
    }
    let Some(out) = told_of(row) else {
        return Ok(());
    };
    let _is_first = tally.raise(out, alloc)?;
    Ok(())
}

// Counts some keys, each once.
fn raise_all(tally: &mut Tally, some: &[MetricKey], alloc: Global) -> Result<(), AllocError>
    requires few { CountsFew tally.old most_keys }
    ensures counts { OnOk result (RaisesAll tally.old tally.new some.now) }
    ensures zeros { OnOk result (NewZeros tally.old tally.new []) }
{
    show_few(some);
    for key in some {
        let _is_first = tally.raise(key, alloc)?;
    }
    Ok(())
}
