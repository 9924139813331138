//! What a metric asks of predicates.
ghost use Rattle.std.specs.Prelude.{◌≡◌, [], map, replicate, length, Some, OnOk, IfOk};
ghost use Rattle.std.specs.List.{range_with_len};
ghost use Rattle.metric_meaning.specs.Readings.{LeafReading, atom_reading, key_reading};
ghost use Rattle.metric_meaning.specs.MetricConditions.{link_binds, binds_at};
ghost use Rattle.metric_meaning.specs.SnapshotSteps.{nothing_read};

use crate::key_room::atom_key_into;
use atom_record::{Atom, DimKey};
use condition_links::{bind_atom_into, bind_key_into, read_key, read_key_into};
use config_links::LLink;
use field_select::{FieldSet, key_of};
use predicate_state::BindList;
use sd_base::Seq;
use std::alloc::{AllocError, Global};

/// What the values of a key are read from, and those that links ask for.
pub trait Asked {
    /// The values at the fields of any set.
    ghost reading: { Self → LeafReading };

    /// The values at the fields of a set.
    fn read(&self, alloc: Global, set: &FieldSet) -> Result<DimKey, AllocError>
        ensures { IfOk result (λ key. key ≡ reading self.now set.now) };

    /// The same, in the room of another key, of which nothing is left.
    fn read_into(
        &self,
        alloc: Global,
        set: &FieldSet,
        values: &mut DimKey,
    ) -> Result<(), AllocError>
        ensures { OnOk result (values.new ≡ reading self.now set.now) };

    /// What a link asks of its predicate, in the room of other binds, of which nothing is left.
    fn bind_into(&self, alloc: Global, link: &LLink, binds: &mut BindList) -> Result<(), AllocError>
        ensures { OnOk result (binds.new ≡ link_binds (reading self.now) (Some link.now)) };
}

impl Asked for Atom {
    ghost reading = { atom_reading };

    fn read(&self, alloc: Global, set: &FieldSet) -> Result<DimKey, AllocError> {
        key_of(alloc, set, self)
    }

    fn read_into(
        &self,
        alloc: Global,
        set: &FieldSet,
        values: &mut DimKey,
    ) -> Result<(), AllocError> {
        atom_key_into(alloc, set, self, values)
    }

    fn bind_into(
        &self,
        alloc: Global,
        link: &LLink,
        binds: &mut BindList,
    ) -> Result<(), AllocError> {
        bind_atom_into(alloc, link, self, binds)
    }
}

/// A key of a predicate that a duration times, and the fields whose values it has.
#[derive(Clone, Copy)]
pub struct InnerKey<'a> {
    pub fields: &'a FieldSet,
    pub key: &'a DimKey,
}

impl Asked for InnerKey<'_> {
    ghost reading = { λ it. key_reading it.fields.now it.key.now };

    fn read(&self, alloc: Global, set: &FieldSet) -> Result<DimKey, AllocError> {
        read_key(alloc, self.fields, self.key, set)
    }

    fn read_into(
        &self,
        alloc: Global,
        set: &FieldSet,
        values: &mut DimKey,
    ) -> Result<(), AllocError> {
        read_key_into(alloc, self.fields, self.key, set, values)
    }

    fn bind_into(
        &self,
        alloc: Global,
        link: &LLink,
        binds: &mut BindList,
    ) -> Result<(), AllocError> {
        bind_key_into(alloc, link, self.fields, self.key, binds)
    }
}

/// Nothing, as a pulled metric asks, which has no links.
pub struct Nothing;

impl Asked for Nothing {
    ghost reading = { λ nothing. nothing_read };

    fn read(&self, alloc: Global, set: &FieldSet) -> Result<DimKey, AllocError> {
        let _set = set;
        Ok(DimKey::new(alloc))
    }

    fn read_into(
        &self,
        _alloc: Global,
        set: &FieldSet,
        values: &mut DimKey,
    ) -> Result<(), AllocError> {
        let _set = set;
        values.clear();
        Ok(())
    }

    fn bind_into(
        &self,
        _alloc: Global,
        link: &LLink,
        binds: &mut BindList,
    ) -> Result<(), AllocError> {
        let _link = link;
        binds.clear();
        Ok(())
    }
}

/// What a metric's links ask of each of so many predicates, by what they read. The room of the lists is used again.
pub fn ask_all<A: Asked>(
    alloc: Global,
    links: &[LLink],
    asked: &A,
    predicates: usize,
    binds: &mut Vec<BindList>,
) -> Result<(), AllocError>
    ensures { OnOk result (binds.new.items
        ≡ map (binds_at links.now (A.reading asked.now)) (range_with_len 0 predicates)) }
{
    ask_nothing(alloc, predicates, binds)?;
    // from the last on, since of two links to a predicate the first one counts
    for at in (0..links.len()).rev() {
        let link = &links[at];
        let place = link.predicate as usize;
        if place < predicates {
            asked.bind_into(alloc, link, &mut binds[place])?;
        }
    }
    Ok(())
}

// Nothing is asked of any of so many predicates. Where there are as many lists, their room is used again.
fn ask_nothing(
    alloc: Global,
    predicates: usize,
    binds: &mut Vec<BindList>,
) -> Result<(), AllocError>
    ensures { OnOk result (binds.new.items ≡ replicate predicates []) }
{
    if binds.len() != predicates {
        return make_lists(alloc, predicates, binds);
    }
    clear_lists(binds);
    Ok(())
}

// Nothing is left in any of the lists.
fn clear_lists(binds: &mut Vec<BindList>)
    ensures { binds.new.items ≡ replicate (length binds.old.items) [] }
{
    for at in 0..binds.len() {
        binds[at].clear();
    }
}

// So many lists of nothing.
fn make_lists(alloc: Global, predicates: usize, binds: &mut Vec<BindList>) -> Result<(), AllocError>
    ensures { OnOk result (binds.new.items ≡ replicate predicates []) }
{
    binds.clear();
    for _ in 0..predicates {
        binds.push(Seq::new(alloc))?;
    }
    Ok(())
}
