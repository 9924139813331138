//! A live configuration is saved, and built again.
ghost use Rattle.std.specs.Prelude.{◌≡◌, ◌++◌, IfOk, OnOk, OnErr};
ghost use Rattle.std.proofs.Common.{refl};
ghost use Rattle.flat_form.specs.Bounded.{short_head};
ghost use Rattle.flat_form.specs.Flat.{IsFront, Builds};
ghost use Rattle.client_engine.specs.SavedInstances.{instance_items};
ghost use Rattle.hub_core.specs.SavedConfigs.{uid_items, IsUid, name_items, IsLiveName, IsInstanceOf};

use super::Carried;
use crate::configs::read_linked;
use client_engine::{Instance, LiveId};
use config_links::Linked;
use flat_form::{Flat, FlatError, Item, Items, build_bytes};
use sd_base::Duplicate;
use std::alloc::{AllocError, Global};

// Adds the client and the id of a name.
fn flatten_name(name: LiveId, alloc: Global, out: &mut Items) -> Result<(), AllocError>
    ensures added { OnOk result (out.new ≡ out.old ++ name_items name) }
    ensures valid { IsLiveName name }
    ensures err { OnErr result (IsFront out.old out.new) }
{
    let uid = u64::from(name.uid.cast_unsigned());
    (uid, name.id).flatten(alloc, out)
}

// The client that stands at a place, and the place after it.
fn build_uid(alloc: Global, items: &Items, place: usize) -> Result<(i32, usize), FlatError>
    ensures { Builds IsUid uid_items items.now place result }
{
    let (bits, next) = u64::build(alloc, items, place)?;
    if bits > u64::from(u32::MAX) {
        return Err(FlatError::Bad);
    }
    Ok(((bits as u32).cast_signed(), next))
}

// The name that stands at a place, and the place after it.
fn build_name(alloc: Global, items: &Items, place: usize) -> Result<(LiveId, usize), FlatError>
    ensures { Builds IsLiveName name_items items.now place result }
{
    let (uid, middle) = build_uid(alloc, items, place)?;
    let (id, next) = i64::build(alloc, items, middle)?;
    Ok((LiveId { uid, id }, next))
}

// The instance that stands at a place and is linked as these bytes say for a client, and the place after it.
fn build_instance(
    alloc: Global,
    uid: i32,
    config: &[u8],
    items: &Items,
    place: usize,
) -> Result<(Instance, usize), FlatError>
    ensures { Builds (IsInstanceOf uid config.now) instance_items items.now place result }
{
    let Ok(linked) = read_linked(alloc, uid, config)? else {
        return Err(FlatError::Bad);
    };
    Instance::build(alloc, linked, items, place)
}

impl Carried {
    ghost use Rattle.config_links.specs.SoundConfig.{IsSoundConfig};
    ghost use Rattle.client_engine.specs.Running.{linked_of};

    /// Whose it is.
    pub fn name(&self) -> LiveId
        ensures { result ≡ self.now.name }
    {
        self.name
    }

    /// Its linked form, read of its bytes once more.
    pub fn linked(&self, alloc: Global) -> Result<Linked, AllocError>
        ensures linked { IfOk result (λ linked. linked ≡ linked_of self.now.instance) }
        ensures sound { IfOk result IsSoundConfig }
    {
        match read_linked(alloc, self.name.uid, self.config.as_slice())? {
            Ok(linked) => Ok(linked),
            Err(_) => unreachable!(),
        }
    }
}

impl Flat for Carried {
    ghost use Rattle.hub_core.specs.SavedConfigs.{carried_items, IsCarried, IsSavableConfig, carried_entries};
    ghost use Rattle.hub_core.specs.SavedLaws.{carried_bounded, carried_few, carried_spells};

    ghost flat = { carried_items };

    ghost valid = { IsCarried };

    ghost savable = { IsSavableConfig };

    ghost head = { 0 };

    ghost short = { short_head 0 refl };

    ghost entries = { carried_entries };

    ghost bounded = { carried_bounded };

    ghost few = { carried_few };

    ghost spells = { carried_spells };

    fn show_valid(&self) {
        let _uid = self.name.uid;
        let _id = self.name.id;
        self.instance.show_saved();
    }

    fn flatten(&self, alloc: Global, out: &mut Items) -> Result<(), AllocError> {
        flatten_name(self.name, alloc, out)?;
        out.push(Item::Chunk(self.config.duplicate(alloc)?))?;
        self.instance.flatten(alloc, out)
    }

    fn build(alloc: Global, items: &Items, place: usize) -> Result<(Carried, usize), FlatError> {
        let (name, middle) = build_name(alloc, items, place)?;
        let (config, after) = build_bytes(alloc, items, middle)?;
        let (instance, next) = build_instance(alloc, name.uid, config.as_slice(), items, after)?;
        let carried = Carried {
            name,
            config,
            instance,
        };
        Ok((carried, next))
    }
}
