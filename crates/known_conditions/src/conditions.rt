//! The predicates of a configuration: what atoms make of them, and what metrics ask of them.
ghost use Rattle.std.specs.Prelude.{◌≡◌, ◌≤◌, ◌+◌, [], Some, length, slice_get, OnOk, IfOk};
ghost use Rattle.config_links.specs.SoundConfig.{MayBeWithin};
ghost use Rattle.condition_links.specs.ThreeValues.{is_true};
ghost use Rattle.metric_meaning.specs.DurationSteps.{inner_fields};
ghost use Rattle.metric_meaning.specs.Touched.{acts_below, is_touched};
ghost use Rattle.metric_calls.specs.DurationCalls.{event_in};
ghost use Rattle.known_conditions.specs.Known.{logged_step};
ghost use Rattle.known_conditions.specs.Known.{KnowsAfter, KnowsStep, truth_by, holds_by, drops_in};
ghost use Rattle.known_conditions.specs.Known.{reading_in};
ghost use Rattle.known_conditions.specs.KeptPredicates.{CanBeKept, AreKept};
ghost use Rattle.known_conditions.specs.Touchers.{touchers_named};

mod saved;

use crate::asked::{Asked, InnerKey, ask_all};
use crate::events::key_event;
use crate::key_room::KeyRoom;
use crate::lists::find_matched;
use crate::marks::no_marks;
use crate::tables::{Act, act_on_each, drops_of, new_tables};
use crate::touchers::{
    actors_of_all, names_atom_itself, one_holds, timed_predicate, touchers_of_all,
};
use atom_record::{Atom, DimKey, LogFrame};
use condition_links::{Steps, query};
use config_links::{CondTree, LMetric, LPredBody, LPredicate};
use duration_metric::InnerEvent;
use field_select::FieldSet;
use predicate_state::{BindList, PredTable, Truth};
use report_writer::Drop64;
use sd_base::Seq;
use std::alloc::{AllocError, Global};
use std::marker::Model;
use std::mem;
use std::sync::ledger::Ledger;

/// The predicates of a configuration, and what they know.
#[derive(Drop)]
pub struct Conditions {
    /// The predicates, under the one that a metric asks.
    tree: CondTree,
    /// What each predicate knows, in config order.
    tables: Vec<PredTable>,
    /// Of each predicate, the matchers that start or stop it, or one that is reached from it.
    touchers: Seq<Seq<u32>>,
    /// Under each matcher, the predicates that it starts or stops.
    actors: Vec<Seq<usize>>,
    /// The predicates on which the present atom acts, and those on which it did. Only the room is kept.
    acting: Vec<usize>,
    marks: Vec<bool>,
    /// The fields of a combination.
    no_fields: FieldSet,
    /// What a metric asks of each predicate. Only the room is kept from metric to metric.
    binds: Vec<BindList>,
    /// The room in which a duration's output keys are made, from one that asks to the next.
    room: KeyRoom,
    /// The room in which the key of an inner event is made.
    event_key: DimKey,
}

impl Model for Conditions {
    ghost use Rattle.std.specs.Prelude.{◌≡◌, [], length};
    ghost use Rattle.known_conditions.specs.Known.{Known};
    ghost use Rattle.known_conditions.specs.KeptPredicates.{AreKept, acting_matchers};
    ghost use Rattle.known_conditions.specs.Lists.{AreListed};
    ghost use Rattle.known_conditions.specs.Touchers.{all_touchers};

    ghost Value = { Known };

    ghost view = { λ it. record { predicates = it.tree.nodes; tables = it.tables.items } };

    ghost invariant = { λ it. AreKept it.tree.nodes it.tables.items
        × (it.touchers ≡ all_touchers it.tree.nodes)
        × (it.no_fields ≡ record { atom_id = 0; leaves = [] })
        × AreListed it.actors.items acting_matchers it.tree.nodes
        × (length it.marks.items ≡ length it.tree.nodes) };
}

impl Conditions {
    /// Predicates to which nothing has happened yet.
    pub fn new(alloc: Global, predicates: Seq<LPredicate>) -> Result<Conditions, AllocError>
        requires can_be_kept { CanBeKept predicates }
        ensures predicates { IfOk result (λ it. it.predicates ≡ predicates) }
        ensures knows { IfOk result (KnowsAfter []) }
    {
        let tables = new_tables(alloc, predicates.as_slice())?;
        Conditions::with_tables(alloc, predicates, tables)
    }

    /// Predicates that know what their tables say. What is made of the predicates alone is made here.
    pub fn with_tables(
        alloc: Global,
        predicates: Seq<LPredicate>,
        tables: Vec<PredTable>,
    ) -> Result<Conditions, AllocError>
        requires kept { AreKept predicates tables.items }
        ensures predicates { IfOk result (λ it. it.predicates ≡ predicates) }
        ensures tables { IfOk result (λ it. it.tables ≡ tables.items) }
    {
        let kept = predicates.as_slice();
        let touchers = touchers_of_all(alloc, kept)?;
        let actors = actors_of_all(alloc, kept)?;
        let marks = no_marks(alloc, kept.len())?;
        Ok(Conditions {
            tree: CondTree {
                root: None,
                nodes: predicates,
            },
            tables,
            touchers,
            actors,
            acting: Vec::new(alloc),
            marks,
            no_fields: FieldSet {
                atom_id: 0,
                leaves: Seq::new(alloc),
            },
            binds: Vec::new(alloc),
            room: KeyRoom::new(alloc),
            event_key: DimKey::new(alloc),
        })
    }

    /// A frame of the log comes. An atom acts on each predicate of which a matcher holds. Where there is no predicate,
    /// nothing is looked at.
    pub fn log(
        &mut self,
        alloc: Global,
        frame: &LogFrame,
        matched: &[bool],
    ) -> Result<(), AllocError>
        ensures knows { OnOk result (KnowsStep (logged_step frame.now matched.now) self.old self.new) }
        ensures predicates { self.new.predicates ≡ self.old.predicates }
    {
        if self.tables.is_empty() {
            return Ok(());
        }
        self.log_some(alloc, frame, matched)
    }

    // The same where there are predicates.
    #[inline(never)]
    fn log_some(
        &mut self,
        alloc: Global,
        frame: &LogFrame,
        matched: &[bool],
    ) -> Result<(), AllocError>
        ensures knows { OnOk result (KnowsStep (logged_step frame.now matched.now) self.old self.new) }
        ensures predicates { self.new.predicates ≡ self.old.predicates }
    {
        match frame {
            LogFrame::AtomAt { atom, .. } => {
                find_matched(self.actors.as_slice(), matched, &mut self.acting)?;
                self.marks.fill(false);
                act_on_each(
                    self.tree.nodes.as_slice(),
                    self.tables.as_mut_slice(),
                    self.marks.as_mut_slice(),
                    self.acting.as_slice(),
                    &Act {
                        alloc,
                        atom,
                        matched,
                    },
                )?;
                Ok(())
            }
            _ => Ok(()),
        }
    }

    /// Whether an atom with these truths of matchers touches a metric. One that doesn't leaves the truth of its
    /// condition, and does nothing to what a duration times.
    pub fn touches(&self, metric: &LMetric, matched: &[bool]) -> bool
        ensures { result ≡ is_touched self.now.predicates metric.now matched.now }
    {
        names_atom_itself(metric, matched)
            || self.acts_below(metric.condition, matched)
            || self.acts_below(timed_predicate(metric), matched)
    }

    /// Whether an atom with these truths of matchers acts on a predicate, if one is named, or on one that is reached
    /// from it. One that doesn't act below a metric's condition leaves its truth.
    pub fn acts_below(&self, root: Option<u32>, matched: &[bool]) -> bool
        ensures { result ≡ acts_below self.now.predicates matched.now root }
    {
        match root {
            Some(root) => self.touches_at(root, matched),
            None => false,
        }
    }

    /// The matchers that start or stop the predicate that is named, or one that is reached from it; none if none is
    /// named.
    pub fn touchers_of(&self, root: Option<u32>) -> &[u32]
        ensures { result.now ≡ touchers_named self.now.predicates root }
    {
        match root {
            Some(root) => match self.touchers.get(root as usize) {
                Some(matchers) => matchers.as_slice(),
                None => &[],
            },
            None => &[],
        }
    }

    // Whether an atom acts on the predicate at a place, or on one that is reached from it.
    fn touches_at(&self, root: u32, matched: &[bool]) -> bool
        ensures { result ≡ acts_below self.now.predicates matched.now (Some root) }
    {
        match self.touchers.get(root as usize) {
            Some(matchers) => one_holds(matchers.as_slice(), matched),
            None => false,
        }
    }

    /// Whether a metric's condition is true for what its links read, by what predicates know now.
    #[inline(never)]
    pub fn holds<A: Asked, L: Ledger>(
        &mut self,
        alloc: Global,
        metric: &LMetric,
        asked: &A,
        asks: &mut Steps<L>,
    ) -> Result<bool, AllocError>
        requires within { MayBeWithin (length self.old.predicates) metric.now.condition }
        ensures truth { IfOk result (λ truth. truth
            ≡ holds_by self.old metric.now (A.reading asked.now)) }
        ensures known { self.new ≡ self.old }
        ensures asks { asks.new ≤ asks.old + 1 }
    {
        let truth = self.truth(alloc, metric, asked, asks)?;
        Ok(is_for_sure(truth))
    }

    /// The truth of a metric's condition for what its links read, by what predicates know now.
    pub fn truth<A: Asked, L: Ledger>(
        &mut self,
        alloc: Global,
        metric: &LMetric,
        asked: &A,
        asks: &mut Steps<L>,
    ) -> Result<Truth, AllocError>
        requires within { MayBeWithin (length self.old.predicates) metric.now.condition }
        ensures truth { IfOk result (λ truth. truth
            ≡ truth_by self.old metric.now (A.reading asked.now)) }
        ensures known { self.new ≡ self.old }
        ensures asks { asks.new ≤ asks.old + 1 }
    {
        if metric.condition.is_none() {
            return Ok(Truth::True);
        }
        let links = metric.links.as_slice();
        ask_all(alloc, links, asked, self.tree.nodes.len(), &mut self.binds)?;
        self.tree.root = metric.condition;
        Ok(query(
            &self.tree,
            self.tables.as_slice(),
            self.binds.as_slice(),
            asks,
        ))
    }

    /// Whether a metric's condition is true for a key of the predicate that it times, by what predicates know now.
    pub fn holds_for_key<L: Ledger>(
        &mut self,
        alloc: Global,
        metric: &LMetric,
        key: &DimKey,
        asks: &mut Steps<L>,
    ) -> Result<bool, AllocError>
        requires within { MayBeWithin (length self.old.predicates) metric.now.condition }
        ensures truth { IfOk result (λ truth. truth
            ≡ holds_by self.old metric.now (reading_in self.old metric.now key.now)) }
        ensures known { self.new ≡ self.old }
        ensures asks { asks.new ≤ asks.old + 1 }
    {
        if metric.condition.is_none() {
            return Ok(true);
        }
        let links = metric.links.as_slice();
        let nodes = self.tree.nodes.as_slice();
        let fields = fields_at(nodes, &self.no_fields, metric.what);
        let inner = InnerKey { fields, key };
        ask_all(alloc, links, &inner, nodes.len(), &mut self.binds)?;
        self.tree.root = metric.condition;
        Ok(is_for_sure(query(
            &self.tree,
            self.tables.as_slice(),
            self.binds.as_slice(),
            asks,
        )))
    }

    /// The fields whose values the keys of a predicate have; a combination has none, and what isn't there neither.
    pub fn fields_of(&self, place: u32) -> &FieldSet
        ensures { result.now ≡ inner_fields (slice_get self.now.predicates place) }
    {
        fields_at(self.tree.nodes.as_slice(), &self.no_fields, place)
    }

    /// What an atom does to the keys of a predicate, if it does something. Its key is made in the room of the last one
    /// that was given back.
    pub fn inner_event(
        &mut self,
        alloc: Global,
        place: u32,
        atom: &Atom,
        matched: &[bool],
    ) -> Result<Option<InnerEvent>, AllocError>
        ensures event { IfOk result (λ event. event
            ≡ event_in (slice_get self.old.predicates place) matched.now atom.now) }
        ensures known { self.new ≡ self.old }
    {
        match self.tree.nodes.get(place as usize) {
            Some(predicate) => key_event(
                alloc,
                &predicate.body,
                atom,
                matched,
                &mut self.event_key,
            ),
            None => Ok(None),
        }
    }

    /// Gives an event back, whose key's room the next one gets.
    pub fn give_event(&mut self, event: Option<InnerEvent>)
        ensures { self.new ≡ self.old }
    {
        if let Some(event) = event {
            self.event_key = event.key;
        }
    }

    /// Takes the room for keys, which the next one that asks gets if it is given back.
    pub fn take_room(&mut self, alloc: Global) -> KeyRoom
        ensures { self.new ≡ self.old }
    {
        mem::replace(&mut self.room, KeyRoom::new(alloc))
    }

    /// Gives the room for keys back.
    pub fn give_room(&mut self, room: KeyRoom)
        ensures { self.new ≡ self.old }
    {
        self.room = room;
    }

    /// How often a key found no room, for each predicate where that is so.
    pub fn drops(&self, alloc: Global) -> Result<Seq<Drop64>, AllocError>
        ensures { IfOk result (λ drops. drops ≡ drops_in self.now.predicates self.now.tables) }
    {
        drops_of(alloc, self.tree.nodes.as_slice(), self.tables.as_slice())
    }
}

// Whether it is known to hold.
fn is_for_sure(truth: Truth) -> bool
    ensures { result ≡ is_true truth }
{
    match truth {
        Truth::True => true,
        Truth::False | Truth::Unknown => false,
    }
}

// The fields whose values the keys of the predicate at a place have, or none.
fn fields_at<'a>(nodes: &'a [LPredicate], no_fields: &'a FieldSet, place: u32) -> &'a FieldSet
    requires none { no_fields.now ≡ record { atom_id = 0; leaves = [] } }
    ensures { result.now ≡ inner_fields (slice_get nodes.now place) }
{
    match nodes.get(place as usize) {
        Some(predicate) => match &predicate.body {
            LPredBody::Simple { dims, .. } => dims,
            LPredBody::Combo { .. } => no_fields,
        },
        None => no_fields,
    }
}
