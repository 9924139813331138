//! What a duration times, and the states by which a metric is sliced.
ghost use Rattle.std.specs.Prelude.{◌≡◌, map, None, IfOk};
ghost use Rattle.std.specs.List.{list_all, list_any};
ghost use Rattle.link_rules.specs.LinkFaults.{Links};
ghost use Rattle.link_rules.specs.EntityIds.{set_ids};
ghost use Rattle.config_links.specs.MetricLinks.{are_as_many, are_all_of};
ghost use Rattle.config_links.specs.MetricSlices as words;

use crate::metrics::MetricParts;
use crate::reasons::{Reason, make_fault};
use crate::scope::Scope;
use crate::sets::StateLinkSets;
use crate::table::DimsTable;
use crate::{LLink, LSlice};
use distinct::first_repeat;
use field_select::{FieldSet, LeafPath};
use link_rules::{Kind, LinkError, Metric};
use sd_base::Seq;
use std::alloc::{AllocError, Global};

// Whether what a duration times is a simple predicate.
fn can_time(scope: &Scope, kind: &Kind, what: i64) -> bool
    ensures { result ≡ words.times_simple scope.now kind.now what }
{
    match kind {
        Kind::Duration { .. } => scope.spec_of(what).is_some(),
        _ => true,
    }
}

// Whether the fields of each link are among these dimensions.
fn cover_links(table: &DimsTable, links: &[LLink]) -> bool
    ensures { result ≡ are_all_of (λ (link : LLink). link.in_what)
        table.now.atom_id table.now.leaves links.now }
{
    for link in links {
        if !table.covers(&link.in_what) {
            return false;
        }
    }
    true
}

// Whether the fields of each state link are among these dimensions.
fn cover_state_links(table: &DimsTable, links: &[StateLinkSets]) -> bool
    ensures { result ≡ are_all_of (λ (sets : StateLinkSets). sets.in_what)
        table.now.atom_id table.now.leaves links.now }
{
    for sets in links {
        if !table.covers(&sets.in_what) {
            return false;
        }
    }
    true
}

// Whether the fields of a metric are among these dimensions.
fn cover_all(table: &DimsTable, parts: &MetricParts) -> bool
    ensures { result ≡ words.are_among table.now.atom_id table.now.leaves parts.now }
{
    if !table.covers(&parts.dims) {
        return false;
    }
    cover_links(table, parts.links.as_slice())
        && cover_state_links(table, parts.state_links.as_slice())
}

// Whether the fields of a duration are among the dimensions of the predicate that it times.
fn covers_timed(
    alloc: Global,
    scope: &Scope,
    kind: &Kind,
    parts: &MetricParts,
) -> Result<bool, LinkError>
    ensures { Links result None (words.is_timed_within scope.now kind.now parts.now) }
{
    match kind {
        Kind::Duration { .. } => {
            let table = scope.dims_of(alloc, parts.what)?;
            Ok(cover_all(&table, parts))
        }
        _ => Ok(true),
    }
}

// Whether a number is that of an atom.
fn is_id_of(atom: u32, number: Option<i32>) -> bool
    ensures { result ≡ words.is_atom atom number }
{
    match number {
        Some(number) => i64::from(number) == i64::from(atom),
        None => false,
    }
}

// Whether a number is that of one of these atoms.
fn is_sliced(atoms: &[u32], number: Option<i32>) -> bool
    ensures { result ≡ list_any (λ atom. words.is_atom atom number) atoms.now }
{
    for atom in atoms {
        if is_id_of(*atom, number) {
            return true;
        }
    }
    false
}

// A leaf without its position, as a number.
fn number_leaf(leaf: &LeafPath) -> u32
    ensures { result ≡ words.leaf_number leaf.now }
{
    256 * u32::from(leaf.field) + u32::from(leaf.sub)
}

// Whether leaves rise strictly, by field and then by the field of a message.
fn is_rising(leaves: &[LeafPath]) -> bool
    ensures { result ≡ words.rise leaves.now }
{
    let mut last: Option<u32> = None;
    for leaf in leaves {
        let number = number_leaf(leaf);
        if let Some(last) = last
            && last >= number
        {
            return false;
        }
        last = Some(number);
    }
    true
}

// Whether two sets have as many leaves, and not none.
fn have_same_count(one: &FieldSet, other: &FieldSet) -> bool
    ensures { result ≡ are_as_many one.now other.now }
{
    let leaves = one.leaves.len();
    leaves != 0 && leaves == other.leaves.len()
}

// Whether a state link is of a sliced state's atom and has two fitting sides.
fn is_fit_link(atoms: &[u32], sets: &StateLinkSets) -> bool
    ensures { result ≡ words.fits_state atoms.now sets.now }
{
    if !is_sliced(atoms, sets.atom_id) || !have_same_count(&sets.in_what, &sets.in_state) {
        return false;
    }
    is_id_of(sets.in_state.atom_id, sets.atom_id) && is_rising(sets.in_state.leaves.as_slice())
}

// Whether each state link fits.
fn each_fits(atoms: &[u32], links: &[StateLinkSets]) -> bool
    ensures { result ≡ list_all (words.fits_state atoms.now) links.now }
{
    for sets in links {
        if !is_fit_link(atoms, sets) {
            return false;
        }
    }
    true
}

// The atoms that state links name.
fn collect_linked_atoms(alloc: Global, links: &[StateLinkSets]) -> Result<Seq<i32>, AllocError>
    ensures { IfOk result (λ atoms. atoms ≡ set_ids (map words.linked_atom links.now)) }
{
    let mut atoms = Seq::new(alloc);
    for sets in links {
        if let Some(atom_id) = sets.atom_id {
            atoms.push(atom_id)?;
        }
    }
    Ok(atoms)
}

// Whether each state link fits, and no two name the same atom.
fn judge_state_links(
    alloc: Global,
    atoms: &[u32],
    links: &[StateLinkSets],
) -> Result<bool, AllocError>
    ensures { IfOk result (λ fit. fit ≡ words.fit_states atoms.now links.now) }
{
    if !each_fits(atoms, links) {
        return Ok(false);
    }
    let named = collect_linked_atoms(alloc, links)?;
    Ok(first_repeat(alloc, named.as_slice())?.is_none())
}

// The atoms of the states by which a metric is sliced.
fn collect_sliced_atoms(
    alloc: Global,
    scope: &Scope,
    slices: &[i64],
) -> Result<Seq<u32>, AllocError>
    ensures { IfOk result (λ atoms. atoms ≡ words.sliced_atoms scope.now slices.now) }
{
    let mut atoms = Seq::new(alloc);
    for id in slices {
        atoms.push(scope.find_state_atom(*id))?;
    }
    Ok(atoms)
}

// Whether a kind of metric may be sliced by states.
fn takes_slices(scope: &Scope, kind: &Kind, what: i64) -> bool
    ensures { result ≡ words.may_be_sliced scope.now kind.now what }
{
    match kind {
        Kind::Duration { max_sparse } => !*max_sparse,
        Kind::Value(_) => !scope.is_of_pulled_atom(what),
        _ => true,
    }
}

// Whether a metric has no slices, or may have these.
fn judge_slices(
    alloc: Global,
    scope: &Scope,
    metric: &Metric,
    what: i64,
    atoms: &[u32],
) -> Result<bool, AllocError>
    requires { atoms.now ≡ words.sliced_atoms scope.now metric.now.sliced.slices }
    ensures { IfOk result (λ fit. fit ≡
        words.fit_slices scope.now metric.now.kind what metric.now.sliced.slices) }
{
    if !metric.sliced.slices.is_empty() && !takes_slices(scope, &metric.kind, what) {
        return Ok(false);
    }
    Ok(first_repeat(alloc, atoms)?.is_none())
}

// A copy of a set.
fn set_copy(alloc: Global, set: &FieldSet) -> Result<FieldSet, AllocError>
    ensures { IfOk result (λ copy. copy ≡ set.now) }
{
    Ok(FieldSet {
        atom_id: set.atom_id,
        leaves: Seq::from_slice(alloc, set.leaves.as_slice())?,
    })
}

// The fields for the state of an atom, where there is a link to it.
fn find_slice_fields(
    alloc: Global,
    links: &[StateLinkSets],
    atom: u32,
) -> Result<Option<FieldSet>, AllocError>
    ensures { IfOk result (λ fields. fields ≡ words.slice_fields links.now atom) }
{
    for sets in links {
        if is_id_of(atom, sets.atom_id) {
            let fields = set_copy(alloc, &sets.in_what)?;
            return Ok(Some(fields));
        }
    }
    Ok(None)
}

// The slice by the state of an id.
fn slice_in(
    alloc: Global,
    scope: &Scope,
    links: &[StateLinkSets],
    id: i64,
) -> Result<LSlice, AllocError>
    ensures { IfOk result (λ slice. slice ≡ words.linked_slice scope.now links.now id) }
{
    let in_what = find_slice_fields(alloc, links, scope.find_state_atom(id))?;
    Ok(LSlice {
        state: scope.ids.states.locate(id),
        in_what,
    })
}

// The slices by the states of these ids.
fn all_slices(
    alloc: Global,
    scope: &Scope,
    links: &[StateLinkSets],
    ids: &[i64],
) -> Result<Seq<LSlice>, AllocError>
    ensures { IfOk result (λ slices. slices ≡
        map (words.linked_slice scope.now links.now) ids.now) }
{
    let mut slices = Seq::new(alloc);
    for id in ids {
        slices.push(slice_in(alloc, scope, links, *id)?)?;
    }
    Ok(slices)
}

// The slices by the states of these ids of a metric of this kind.
fn kind_slices(
    alloc: Global,
    scope: &Scope,
    kind: &Kind,
    links: &[StateLinkSets],
    ids: &[i64],
) -> Result<Seq<LSlice>, AllocError>
    ensures { IfOk result (λ slices. slices ≡
        words.linked_slices scope.now kind.now links.now ids.now) }
{
    match kind {
        Kind::Event | Kind::Gauge(_) => Ok(Seq::new(alloc)),
        _ => all_slices(alloc, scope, links, ids),
    }
}

/// Refuses a duration that times what it can't.
#[tactic(auto, unfolding(crate::specs::MetricSlices::bad_times))]
pub fn refuse_times(
    alloc: Global,
    scope: &Scope,
    metric: &Metric,
    parts: &MetricParts,
) -> Result<(), LinkError>
    ensures { Links result (words.bad_times scope.now metric.now parts.now) tt }
{
    if !can_time(scope, &metric.kind, parts.what) {
        return Err(LinkError::Fault(make_fault(metric.common.id, Reason::NotTimed)));
    }
    if !covers_timed(alloc, scope, &metric.kind, parts)? {
        return Err(LinkError::Fault(make_fault(metric.common.id, Reason::TimedOutside)));
    }
    Ok(())
}

/// The slices of a metric, or what they can't be.
#[tactic(auto, unfolding(crate::specs::MetricSlices::bad_slices))]
pub fn slices_in(
    alloc: Global,
    scope: &Scope,
    metric: &Metric,
    parts: &MetricParts,
) -> Result<Seq<LSlice>, LinkError>
    ensures { Links result (words.bad_slices scope.now metric.now parts.now)
        (words.linked_slices scope.now metric.now.kind
        parts.now.state_links metric.now.sliced.slices) }
{
    let slices = metric.sliced.slices.as_slice();
    let state_links = parts.state_links.as_slice();
    let atoms = collect_sliced_atoms(alloc, scope, slices)?;
    if !judge_state_links(alloc, atoms.as_slice(), state_links)? {
        return Err(LinkError::Fault(make_fault(metric.common.id, Reason::BadStateLink)));
    }
    if !judge_slices(alloc, scope, metric, parts.what, atoms.as_slice())? {
        return Err(LinkError::Fault(make_fault(metric.common.id, Reason::BadSlices)));
    }
    let linked = kind_slices(alloc, scope, &metric.kind, state_links, slices)?;
    Ok(linked)
}
