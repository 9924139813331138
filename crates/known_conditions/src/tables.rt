//! The tables of predicates, each at the place of its predicate.
ghost use Rattle.std.specs.Prelude.{◌≡◌, ◌≤◌, ◌++◌, [], length, replicate, false, OnOk, IfOk};
ghost use Rattle.std.specs.List.{All};
ghost use Rattle.metric_meaning.specs.PredicateSteps.{table_spec, tables_after, first_event, named_truth, atom_events, table_with, drop_above_zero};
ghost use Rattle.known_conditions.specs.Known.{drops_in};
ghost use Rattle.known_conditions.specs.KeptPredicates.{HasItsLeaves, KeepsItsLeaves, HasBound, HaveTheirSpecs, AreActedOn};
ghost use Rattle.known_conditions.specs.Marks.{AreAllMarked};

use crate::marks::is_marked;
use crate::matched::is_true_if_named;
use atom_record::Atom;
use config_links::{LPredBody, LPredicate};
use config_types::PredSpec;
use field_select::key_of;
use predicate_state::{PredEvent, PredTable};
use report_writer::Drop64;
use sd_base::Seq;
use std::alloc::{AllocError, Global};

/// How the table of a combination is kept: it stays empty.
const NO_KEYS: PredSpec = PredSpec {
    nesting: false,
    unknown: false,
    bound: 1,
    leaves: 0,
};

/// A table for each predicate, to which nothing has happened yet.
pub fn new_tables(alloc: Global, predicates: &[LPredicate]) -> Result<Vec<PredTable>, AllocError>
    requires bound { All HasBound predicates.now }
    ensures { IfOk result (λ tables. tables.items ≡ tables_after predicates.now []) }
{
    let mut tables = Vec::new(alloc);
    for predicate in predicates {
        tables.push(PredTable::new(alloc, spec_of(&predicate.body)))?;
    }
    Ok(tables)
}

/// How the table of a predicate is kept.
pub fn spec_of(body: &LPredBody) -> PredSpec
    ensures { result ≡ table_spec body.now }
{
    match body {
        LPredBody::Simple { spec, .. } => *spec,
        LPredBody::Combo { .. } => NO_KEYS,
    }
}

/// What acts on predicates: an atom, with the truth of each matcher.
#[derive(Clone, Copy)]
pub struct Act<'a> {
    /// The memory that is taken for keys.
    pub alloc: Global,
    pub atom: &'a Atom,
    pub matched: &'a [bool],
}

/// An atom acts on the predicates at these places, on each once.
pub fn act_on_each(
    predicates: &[LPredicate],
    tables: &mut [PredTable],
    marks: &mut [bool],
    places: &[usize],
    act: &Act<'_>,
) -> Result<(), AllocError>
    requires leaves { All KeepsItsLeaves predicates.now }
    requires specs { HaveTheirSpecs predicates.now tables.old }
    requires marks { marks.old ≡ replicate (length predicates.now) false }
    ensures acted { OnOk result (AreActedOn act.now.matched.now act.now.atom.now predicates.now tables.old
        tables.new marks.new) }
    ensures all { OnOk result (AreAllMarked places.now marks.new) }
    ensures specs { HaveTheirSpecs predicates.now tables.new }
    ensures marks { length marks.new ≡ length predicates.now }
{
    for turn in 0..places.len() {
        let place = places[turn];
        if !is_marked(marks, place) {
            marks[place] = true;
            let body = &predicates[place].body;
            act_on(act.alloc, body, &mut tables[place], act.atom, act.matched)?;
        }
    }
    Ok(())
}

// An atom acts on a predicate. Where none of its matchers holds, its table isn't touched.
fn act_on(
    alloc: Global,
    body: &LPredBody,
    table: &mut PredTable,
    atom: &Atom,
    matched: &[bool],
) -> Result<(), AllocError>
    requires spec { table.old.spec ≡ table_spec body.now }
    requires leaves { HasItsLeaves body.now }
    ensures table { OnOk result
        (table.new ≡ table_with (atom_events body.now matched.now atom.now) table.old) }
    ensures spec { table.new.spec ≡ table.old.spec }
{
    match body {
        LPredBody::Simple {
            start,
            stop,
            stop_all,
            dims,
            spec: _,
        } => match event_by(*start, *stop, *stop_all, matched) {
            Some(event) => {
                let key = key_of(alloc, dims, atom)?;
                table.apply(event, &key)
            }
            None => Ok(()),
        },
        LPredBody::Combo { .. } => Ok(()),
    }
}

/// What an atom does to a predicate with these matchers.
pub fn event_by(
    start: Option<u32>,
    stop: Option<u32>,
    stop_all: Option<u32>,
    matched: &[bool],
) -> Option<PredEvent>
    ensures { result ≡ first_event (named_truth stop_all matched.now)
        (named_truth stop matched.now) (named_truth start matched.now) }
{
    if is_true_if_named(matched, stop_all) {
        return Some(PredEvent::StopAll);
    }
    if is_true_if_named(matched, stop) {
        return Some(PredEvent::Stop);
    }
    if is_true_if_named(matched, start) {
        return Some(PredEvent::Start);
    }
    None
}

/// How often a key found no room, for each of these predicates where that is so.
pub fn drops_of(
    alloc: Global,
    predicates: &[LPredicate],
    tables: &[PredTable],
) -> Result<Seq<Drop64>, AllocError>
    requires { length predicates.now ≤ length tables.now }
    ensures { IfOk result (λ drops. drops ≡ drops_in predicates.now tables.now) }
{
    let mut drops = Seq::new(alloc);
    for place in 0..predicates.len() {
        let predicate = &predicates[place];
        let drop = Drop64 {
            id: predicate.id,
            number: tables[place].dropped(),
        };
        add_if_any(&mut drops, drop)?;
    }
    Ok(drops)
}

/// Adds a count that is above 0.
pub fn add_if_any(drops: &mut Seq<Drop64>, drop: Drop64) -> Result<(), AllocError>
    ensures { OnOk result (drops.new ≡ drops.old ++ drop_above_zero drop) }
{
    if drop.number > 0 {
        drops.push(drop)?;
    }
    Ok(())
}
