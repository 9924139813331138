//! The atom that arrives at a metric with a frame of the log, and its key.
ghost use Rattle.std.specs.Prelude.{◌≡◌, ◌≤◌, ◌+◌, length, OnOk, IfOk};
ghost use Rattle.std.specs.Option.{option_copied};
ghost use Rattle.config_links.specs.SoundConfig.{MayBeWithin};
ghost use Rattle.metric_meaning.specs.Arrivals.{arriving_by};
ghost use Rattle.metric_meaning.specs.Readings.{atom_reading};
ghost use Rattle.client_engine.specs.AskedFew.{arrival_questions};
ghost use Rattle.client_engine.specs.Bringing.{brought_step, WhereActive};
ghost use Rattle.client_engine.specs.Keying.{OnKey, OnSlices};

use crate::brought::Brought;
use crate::slices::{slices_into, slices_of};
use atom_record::{Atom, DimKey, LogFrame, MetricKey, Slice};
use condition_links::Steps;
use config_links::{LMetric, LSlice};
use known_conditions::{Asked, Conditions, KeyRoom, atom_key_into, is_true_at};
use sd_base::Seq;
use std::alloc::AllocError;
use std::sync::ledger::Ledger;

/// The atom that arrives at a metric, if one does, whatever the metric makes of it. The condition is asked last:
/// where the metric isn't active or has no condition, nothing is asked of predicates.
#[inline(always)]
pub fn arriving<'a, L: Ledger>(
    metric: &LMetric,
    is_active: bool,
    brought: &Brought<'a>,
    conditions: &mut Conditions,
    asks: &mut Steps<L>,
) -> Result<Option<&'a Atom>, AllocError>
    requires within { MayBeWithin (length conditions.old.predicates) metric.now.condition }
    ensures atom { WhereActive is_active metric.now conditions.old brought.now (λ scene.
        IfOk result (λ found. option_copied found
        ≡ arriving_by scene metric.now (brought_step brought.now))) }
    ensures known { conditions.new ≡ conditions.old }
    ensures asks { asks.new ≤ asks.old
        + arrival_questions brought.now.frame.now brought.now.matched.now metric.now }
{
    if !is_active {
        return Ok(None);
    }
    let LogFrame::AtomAt { atom, .. } = brought.frame else {
        return Ok(None);
    };
    if !is_true_at(brought.matched, metric.what) {
        return Ok(None);
    }
    if metric.condition.is_none() {
        return Ok(Some(atom));
    }
    if !conditions.holds(brought.alloc, metric, atom, asks)? {
        return Ok(None);
    }
    Ok(Some(atom))
}

/// A metric's key of what is read, as of an atom that arrives.
pub fn key_in<A: Asked>(
    metric: &LMetric,
    brought: &Brought<'_>,
    asked: &A,
) -> Result<MetricKey, AllocError>
    ensures { OnKey brought.now metric.now (A.reading asked.now)
        (λ own. IfOk result (λ key. key ≡ own)) }
{
    let dims = asked.read(brought.alloc, &metric.dims)?;
    let by = metric.slices.as_slice();
    let slices = slices_of(brought, by, asked)?;
    Ok(MetricKey { dims, slices })
}

/// The same, in the room of another key, of which nothing is left.
pub fn key_into<A: Asked>(
    metric: &LMetric,
    brought: &Brought<'_>,
    asked: &A,
    room: &mut KeyRoom,
) -> Result<(), AllocError>
    ensures { OnKey brought.now metric.now (A.reading asked.now)
        (λ own. OnOk result (room.new.key ≡ own)) }
{
    asked.read_into(brought.alloc, &metric.dims, &mut room.key.dims)?;
    let by = metric.slices.as_slice();
    slices_into(brought, by, asked, &mut room.state, &mut room.key.slices)
}

/// The same of an atom, in the room of another key, of which nothing is left.
pub fn metric_key_into(
    metric: &LMetric,
    brought: &Brought<'_>,
    atom: &Atom,
    room: &mut KeyRoom,
) -> Result<(), AllocError>
    ensures { OnKey brought.now metric.now (atom_reading atom.now)
        (λ own. OnOk result (room.new.key ≡ own)) }
{
    atom_key_into(brought.alloc, &metric.dims, atom, &mut room.key.dims)?;
    let by = metric.slices.as_slice();
    atom_slices_into(brought, by, atom, &mut room.state, &mut room.key.slices)
}

// The slices of an atom, in the room of other slices, by keys in the room of another key. Most metrics are sliced by no
// state.
#[inline(always)]
fn atom_slices_into(
    brought: &Brought<'_>,
    slices: &[LSlice],
    atom: &Atom,
    key: &mut DimKey,
    shown: &mut Seq<Slice>,
) -> Result<(), AllocError>
    ensures { OnSlices brought.now (atom_reading atom.now) slices.now
        (λ slices. OnOk result (shown.new ≡ slices)) }
{
    if slices.is_empty() {
        shown.clear();
        return Ok(());
    }
    slices_into(brought, slices, atom, key, shown)
}
