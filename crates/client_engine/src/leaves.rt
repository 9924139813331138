//! The values of a key, as a report shows them.
ghost use Rattle.std.specs.Prelude.{◌≡◌, ◌++◌, ◌∷◌, [], ℕ, Some, map, OnOk, IfOk};
ghost use Rattle.metric_meaning.specs.KeyTrees.{leaf_trees, key_trees};
ghost use Rattle.client_engine.specs.Leaves.{value_tree};

use atom_record::{DimKey, Leaf, Value};
use report_writer::LeafTree;
use sd_base::Seq;
use std::alloc::{AllocError, Global};

/// The values of all leaves of a key, in order, each with the place of its leaf.
pub fn leaves_of(alloc: Global, dims: DimKey) -> Result<Seq<LeafTree>, AllocError>
    ensures { IfOk result (λ leaves. leaves ≡ key_trees 0 dims) }
{
    let mut leaves = Seq::with_capacity(alloc, dims.len())?;
    let mut place: u32 = 0;
    for leaf in dims.into_leaves() {
        add_leaf(&mut leaves, place, leaf)?;
        // It stands still at the end of its type, where no key comes.
        place = place.saturating_add(1);
    }
    Ok(leaves)
}

// Adds the values of one leaf.
fn add_leaf(leaves: &mut Seq<LeafTree>, place: u32, leaf: Leaf) -> Result<(), AllocError>
    ensures { OnOk result (leaves.new ≡ leaves.old ++ leaf_trees place leaf) }
{
    match leaf {
        Leaf::Missing => leaves.push(LeafTree { place, value: None }),
        Leaf::One(value) => leaves.push(LeafTree {
            place,
            value: Some(value),
        }),
        Leaf::Many(values) => add_values(leaves, place, values),
    }
}

// Adds values of one leaf.
fn add_values(leaves: &mut Seq<LeafTree>, place: u32, values: Seq<Value>) -> Result<(), AllocError>
    ensures { OnOk result (leaves.new ≡ leaves.old ++ map (value_tree place) values) }
{
    for value in values.into_vec() {
        leaves.push(LeafTree {
            place,
            value: Some(value),
        })?;
    }
    Ok(())
}
