//! Rows in groups, most of them by their keys.
ghost use Rattle.std.specs.Prelude.{◌≡◌, ◌∷◌, ◌++◌, [], ℕ, List, Some, slice_get, OnOk, IfOk};
ghost use Rattle.std.specs.Bool.{Decides};
ghost use Rattle.std.specs.Map.{values_of};
ghost use Rattle.indexmap.specs.Layout.{set_value_at};
ghost use Rattle.atom_record.specs.declared.value.MetricKey.{MetricKey};
ghost use Rattle.metric_meaning.specs.KeyTrees.{groups_by};
ghost use Rattle.client_engine.specs.Groups.{row_shown, row_group, AddsRow, grouped};

use atom_record::MetricKey;
use indexmap::IndexMap;
use key_hash::KeyHashing;
use metric_producer::Row;
use sd_base::Seq;
use std::alloc::{AllocError, Global};
use std::hash::Hash;

/// How a report shows the rows of a kind of metric.
pub trait RowShape {
    /// What a row holds.
    type Value: Drop;

    /// What rows are grouped by.
    type Group: Eq + Hash + Drop;

    /// What is shown of a row.
    type Bucket: Drop;

    /// What is shown of a group with its buckets.
    type Tree: Drop;

    /// The group of a row, by its key and its value.
    ghost group_of: { MetricKey → Self.Value → Self.Group };

    /// What is shown of a row, by where its part of time began and ended, and its value.
    ghost bucket: { ℕ → ℕ → Self.Value → Self.Bucket };

    /// What is shown of a group, by its buckets.
    ghost tree: { Self.Group → List Self.Bucket → Self.Tree };

    /// The group of a row with a key and a value.
    fn group_of(key: MetricKey, value: &Self::Value) -> Self::Group
        ensures { result ≡ group_of key value.now };

    /// A row's value as it is shown, with its part of time.
    fn bucket(
        alloc: Global,
        start: u64,
        end: u64,
        value: Self::Value,
    ) -> Result<Self::Bucket, AllocError>
        ensures { IfOk result (λ shown. shown ≡ bucket start end value) };

    /// A group as it is shown.
    fn tree(
        alloc: Global,
        group: Self::Group,
        buckets: Seq<Self::Bucket>,
    ) -> Result<Self::Tree, AllocError>
        ensures { IfOk result (λ shown. shown ≡ tree group buckets) };

    /// `==` of groups holds exactly where contracts see the same group.
    ghost exact: { (x y : Self.Group) → Decides (Self.Group.eq x y) (x ≡ y) };
}

/// The rows in groups, in the order in which the groups first come.
pub fn groups_of<S: RowShape>(
    alloc: Global,
    rows: Seq<Row<S::Value>>,
) -> Result<Seq<S::Tree>, AllocError>
    ensures { IfOk result (λ groups. groups
        ≡ groups_by S.Group.eq (row_group S.group_of) S.tree (row_shown S.bucket) rows) }
{
    let groups = collected::<S>(alloc, rows)?;
    let mut trees = Seq::with_capacity(alloc, groups.len())?;
    for (group, buckets) in groups {
        trees.push(S::tree(alloc, group, buckets)?)?;
    }
    Ok(trees)
}

// The buckets of each group.
fn collected<S: RowShape>(
    alloc: Global,
    rows: Seq<Row<S::Value>>,
) -> Result<IndexMap<S::Group, Seq<S::Bucket>, KeyHashing>, AllocError>
    ensures { IfOk result (λ groups. groups.entries
        ≡ grouped S.Group.eq (row_group S.group_of) (row_shown S.bucket) rows) }
{
    let hashing = KeyHashing::new();
    let mut groups = IndexMap::with_capacity_and_hasher(alloc, rows.len(), hashing)?;
    for row in rows.into_vec() {
        add_row::<S>(alloc, &mut groups, row)?;
    }
    Ok(groups)
}

// One more row: a bucket more for a group that is there, or a new group.
fn add_row<S: RowShape>(
    alloc: Global,
    groups: &mut IndexMap<S::Group, Seq<S::Bucket>, KeyHashing>,
    row: Row<S::Value>,
) -> Result<(), AllocError>
    ensures { OnOk result
        (AddsRow S.Group.eq (row_group S.group_of) (row_shown S.bucket) groups.old.entries
        groups.new.entries row) }
{
    let Row {
        key,
        start,
        end,
        value,
    } = row;
    let group = S::group_of(key, &value);
    let bucket = S::bucket(alloc, start, end, value)?;
    match groups.get_index_of(&group) {
        Some(place) => add_bucket(groups, place, bucket),
        None => {
            let mut first = Seq::new(alloc);
            first.push(bucket)?;
            groups.insert(group, first)?;
            Ok(())
        }
    }
}

// One more bucket of the group at a place.
fn add_bucket<G: Eq + Hash + Drop, B: Drop>(
    groups: &mut IndexMap<G, Seq<B>, KeyHashing>,
    place: usize,
    bucket: B,
) -> Result<(), AllocError>
    ensures { OnOk result ((buckets : List B)
        → slice_get (values_of groups.old.entries) place ≡ Some buckets
        → groups.new.entries ≡ set_value_at groups.old.entries place (buckets ++ bucket ∷ [])) }
{
    match groups.get_index_mut(place) {
        Some(buckets) => buckets.push(bucket),
        None => Ok(()),
    }
}
