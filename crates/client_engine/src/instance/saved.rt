//! An instance is saved and built again.
ghost use Rattle.std.specs.Prelude.{◌≡◌, ◌++◌, OnOk, OnErr};
ghost use Rattle.config_links.specs.SoundConfig.{IsSoundConfig};
ghost use Rattle.flat_form.specs.Flat.{IsFront, Builds};
ghost use Rattle.client_engine.specs.Running.{linked_of};
ghost use Rattle.client_engine.specs.SavedInstances.{instance_items, IsSavedInstance, BuildsInstance};

use super::Instance;
use super::parts::Parts;
use crate::lanes::MetricLane;
use crate::saved::tables::have_their_specs;
use crate::saved::tracks::{flatten_tracks, show_tracks, tracks_with};
use crate::tracks::Tracks;
use config_links::Linked;
use flat_form::{Flat, FlatError, Items};
use known_conditions::Conditions;
use metric_activation::ActBook;
use predicate_state::PredTable;
use sd_base::Seq;
use std::alloc::{AllocError, Global};

/// The base, the time of the last report, the tables of predicates, and what each metric has.
type Form = (u64, (u64, (Seq<PredTable>, Seq<(MetricLane, ActBook)>)));

impl Instance {
    /// Each instance is one that can be saved. No program has to call this.
    pub fn show_saved(&self)
        ensures { IsSavedInstance (linked_of self.now) self.now }
    {
        self.conditions.show_saved();
        show_tracks(self.tracks.list.as_slice());
    }

    /// Adds the items of the instance at the end. Its configuration isn't among them.
    pub fn flatten(&self, alloc: Global, out: &mut Items) -> Result<(), AllocError>
        ensures added { OnOk result (out.new ≡ out.old ++ instance_items self.now) }
        ensures saved { OnOk result (IsSavedInstance (linked_of self.now) self.now) }

        // The old items stay, and some of the instance's may stand after them.
        ensures err { OnErr result (IsFront out.old out.new) }
    {
        self.show_saved();
        (self.base, self.last).flatten(alloc, out)?;
        self.conditions.flatten(alloc, out)?;
        flatten_tracks(self.tracks.list.as_slice(), alloc, out)
    }

    /// The one instance of a configuration whose items stand at a place, and the place after them. `Bad` comes exactly
    /// where no such instance's items stand there.
    pub fn build(
        alloc: Global,
        linked: Linked,
        items: &Items,
        place: usize,
    ) -> Result<(Instance, usize), FlatError>
        requires sound { IsSoundConfig linked }
        ensures { Builds (IsSavedInstance linked) instance_items items.now place result }
    {
        let (form, next) = Form::build(alloc, items, place)?;
        let instance = restore(alloc, linked, form)?;
        Ok((instance, next))
    }
}

// The instance of a configuration that has this, or `Bad` where none has it.
fn restore(alloc: Global, linked: Linked, form: Form) -> Result<Instance, FlatError>
    requires sound { IsSoundConfig linked }
    ensures { BuildsInstance linked form result }
{
    let (base, (last, (tables, held))) = form;
    if linked.metrics.len() != held.len() {
        return Err(FlatError::Bad);
    }
    let have = have_their_specs(linked.predicates.as_slice(), tables.as_slice());
    if !have {
        return Err(FlatError::Bad);
    }
    let Linked {
        matchers,
        predicates,
        states,
        metrics,
        alerts,
    } = linked;
    let conditions = Conditions::with_tables(alloc, predicates, tables.into_vec())?;
    let list = tracks_with(alloc, metrics, held)?;
    let tracks = Tracks::of(alloc, list)?;
    let parts = Parts {
        matchers,
        conditions,
        states,
        tracks,
        alerts,
        base,
        last,
    };
    let instance = parts.listening(alloc)?;
    Ok(instance)
}
