//! What entities of several kinds can't be.
ghost use Rattle.std.specs.Prelude.{◌≡◌, map, IfOk};
ghost use Rattle.std.specs.Option.{option_map};
ghost use Rattle.link_rules.specs.LinkFaults.{PassesTest};
ghost use Rattle.link_rules.specs.EntityIds.{place_in};
ghost use Rattle.config_links.specs.declared.reasons.Reason.TheVariants.{BadCombination, BadFields};
ghost use Rattle.config_links.specs.LinkReasons.{reason_number, type_fault, names_atom, takes_children, is_combo, may_stand, set_or_none};
ghost use Rattle.config_links.specs.LinkedForm.{operation_or_and};

use config_types::{FieldMatcher, Operation};
use field_select::{FieldSet, SelectError, field_set};
use link_rules::{Known, LinkError, LinkFault};
use sd_base::Seq;
use std::alloc::{AllocError, Global};

/// The number of the fault of an entity that isn't what it should be.
pub const BAD_TYPE: u8 = 9;

/// Why an entity isn't what it should be; of several reasons a refusal names the one of the least number.
#[derive(Clone, Copy)]
pub enum Reason {
    /// A matcher or a predicate is neither simple nor a combination.
    NoBody,
    /// A combination has no operation, or not as many children as it takes.
    BadCombination,
    /// A simple matcher, or a state, names no atom.
    NoAtom,
    /// A simple matcher has a test that can't be asked.
    BadTest,
    /// A tree of fields is ill-formed.
    BadFields,
    /// A link doesn't have as many fields on both sides, or none.
    UnevenLink,
    /// A link is of a predicate that the metric's condition doesn't ask, or that another link is of.
    LinkNotAsked,
    /// The fields of a link aren't among its predicate's dimensions.
    LinkOutside,
    /// A metric doesn't say what it counts or times.
    NoWhat,
    /// What a duration times is no simple predicate.
    NotTimed,
    /// The fields of a duration aren't among the dimensions of the predicate that it times.
    TimedOutside,
    /// A state link is of no sliced state, or its sides don't fit.
    BadStateLink,
    /// A metric that can't be sliced is, or is so twice by the same atom.
    BadSlices,
    /// A value has no leaf that picks one entry.
    NoValue,
    /// A value says of differences what its kind doesn't do.
    BadDiff,
    /// A metric of pulled atoms has links.
    PulledLinks,
    /// A gauge neither takes all fields nor names some.
    NoFilter,
    /// A gauge takes its samples at moments that its kind doesn't have.
    BadSampling,
    /// A metric that no report shows isn't there.
    UnknownHidden,
    /// An activation doesn't say what begins it, or how long it lasts.
    BadActivation,
    /// A metric of pulled atoms has activations.
    PulledActivation,
    /// An alert doesn't say which metric it watches, what a count has to pass, or over how many parts.
    BadAlert,
    /// An alert is on a metric that doesn't count.
    NotCounted,
}

impl Reason {
    /// The number by which a refusal names it.
    pub fn number(self) -> u8
        ensures { result ≡ reason_number self }
    {
        match self {
            Reason::NoBody => 1,
            Reason::BadCombination => 2,
            Reason::NoAtom => 3,
            Reason::BadTest => 4,
            Reason::BadFields => 5,
            Reason::UnevenLink => 6,
            Reason::LinkNotAsked => 7,
            Reason::LinkOutside => 8,
            Reason::NoWhat => 9,
            Reason::NotTimed => 10,
            Reason::TimedOutside => 11,
            Reason::BadStateLink => 12,
            Reason::BadSlices => 13,
            Reason::NoValue => 14,
            Reason::BadDiff => 15,
            Reason::PulledLinks => 16,
            Reason::NoFilter => 17,
            Reason::BadSampling => 18,
            Reason::UnknownHidden => 19,
            Reason::BadActivation => 20,
            Reason::PulledActivation => 21,
            Reason::BadAlert => 22,
            Reason::NotCounted => 23,
        }
    }
}

/// An entity of this id isn't what it should be.
pub fn make_fault(id: Option<i64>, reason: Reason) -> LinkFault
    ensures { result ≡ type_fault id reason }
{
    LinkFault {
        number: BAD_TYPE,
        reason: reason.number(),
        value: id.unwrap_or(0),
    }
}

/// Whether a number is the id of an atom.
pub fn is_atom_id(id: Option<i32>) -> bool
    ensures { result ≡ names_atom id }
{
    match id {
        Some(id) => id > 0,
        None => false,
    }
}

// Whether an operation takes so many children.
fn accepts_count(op: Operation, count: usize) -> bool
    ensures { result ≡ takes_children op count }
{
    match op {
        Operation::Not => count == 1,
        _ => count != 0,
    }
}

/// The operation of a combination that takes its children.
pub fn operation_in(
    id: Option<i64>,
    op: Option<Operation>,
    count: usize,
) -> Result<Operation, LinkError>
    ensures { PassesTest result (is_combo op count)
        (type_fault id BadCombination) (operation_or_and op) }
{
    match op {
        Some(op) if accepts_count(op, count) => Ok(op),
        _ => Err(LinkError::Fault(make_fault(id, Reason::BadCombination))),
    }
}

/// The places of these ids.
pub fn places_in(alloc: Global, known: &Known, ids: &[i64]) -> Result<Seq<u32>, AllocError>
    ensures { IfOk result (λ places. places ≡ map (place_in known.now) ids.now) }
{
    let mut places = Seq::new(alloc);
    for id in ids {
        places.push(known.locate(*id))?;
    }
    Ok(places)
}

/// The place of an id, where there is one.
pub fn place_of_option(known: &Known, id: Option<i64>) -> Option<u32>
    ensures { result ≡ option_map (place_in known.now) id }
{
    match id {
        Some(id) => Some(known.locate(id)),
        None => None,
    }
}

/// The leaves of a tree in an entity of this id. One that is absent has none.
pub fn set_in(
    alloc: Global,
    id: Option<i64>,
    tree: &Option<FieldMatcher>,
) -> Result<FieldSet, LinkError>
    ensures { PassesTest result (may_stand tree.now)
        (type_fault id BadFields) (set_or_none tree.now) }
{
    let Some(tree) = tree else {
        return Ok(FieldSet {
            atom_id: 0,
            leaves: Seq::new(alloc),
        });
    };
    match field_set(alloc, tree) {
        Ok(set) => Ok(set),
        Err(SelectError::BadForm) => Err(LinkError::Fault(make_fault(id, Reason::BadFields))),
        Err(SelectError::Memory) => Err(LinkError::Memory),
    }
}
