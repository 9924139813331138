//! What a pulled metric finds in a snapshot: the atoms that its matcher means, by a judge that is made for the call.
ghost use Rattle.std.specs.Prelude.{◌≡◌, [], All, IfSome};
ghost use Rattle.std.specs.Option.{option_map, option_copied};
ghost use Rattle.atom_record.specs.AtomSound.{HasNoFault};
ghost use Rattle.book_meaning.specs.Snapshots.{atoms_in};
ghost use Rattle.config_types.specs.Askable.{IsAskable};
ghost use Rattle.matcher_eval.specs.AtomTests.{number_set};
ghost use Rattle.pull_book.specs.PullItems.{HoldsSoundAtoms};
ghost use Rattle.metric_meaning.specs.Histories.{Installation};
ghost use Rattle.metric_meaning.specs.SnapshotSteps.{pulled_matcher, snapshot_found};
ghost use Rattle.metric_calls.specs.SnapshotCalls.{is_told_of};
ghost use Rattle.known_conditions.specs.Known.{Known};
ghost use Rattle.client_engine.specs.Opens.{IsOpeningOf};
ghost use Rattle.client_engine.specs.Finding.{MayAsk, CanBeMeant, meant_in, found_among};

use crate::opening::Opening;
use atom_record::{Atom, PullOutcome, is_pulled};
use config_links::{LMatcher, LMetric};
use config_types::SimpleMatcher;

/// The atoms of a snapshot, and the matcher that says which of them a metric means.
#[derive(Clone, Copy)]
pub struct Found<'a> {
    pub matcher: &'a SimpleMatcher,
    pub atoms: &'a [Atom],
}

/// What a metric finds when it is installed.
pub fn found_at_first<'a>(opening: &Opening<'a>, metric: &LMetric) -> Option<Found<'a>>
    requires askable { All MayAsk opening.now.matchers.now }
    ensures found { (installed : Installation) (known : Known)
        → IsOpeningOf installed opening.now known
        → option_map meant_in result ≡ snapshot_found installed metric.now [] }
    ensures meant { IfSome result CanBeMeant }
{
    let matcher = matcher_of(opening.matchers, metric)?;
    let atoms = opening.pulls.snapshot(id_of(matcher))?;
    Some(Found { matcher, atoms })
}

/// Whether a metric is told of a pull of this id.
pub fn is_told(matchers: &[LMatcher], metric: &LMetric, id: u32) -> bool
    ensures { result ≡ is_told_of matchers.now metric.now id }
{
    match matcher_of(matchers, metric) {
        Some(matcher) => id == id_of(matcher) && is_pulled(id),
        None => false,
    }
}

/// What a metric finds in the outcome of a pull.
pub fn found_in<'a>(
    matchers: &'a [LMatcher],
    metric: &LMetric,
    outcome: &'a PullOutcome,
) -> Option<Found<'a>>
    requires askable { All MayAsk matchers.now }
    requires sound { HoldsSoundAtoms outcome.now }
    ensures found { option_map meant_in result
        ≡ found_among matchers.now metric.now (atoms_in outcome.now) }
    ensures meant { IfSome result CanBeMeant }
{
    let matcher = matcher_of(matchers, metric)?;
    let atoms = atoms_of(outcome)?;
    Some(Found { matcher, atoms })
}

// The matcher of what a pulled metric means, if it is a simple one.
fn matcher_of<'a>(matchers: &'a [LMatcher], metric: &LMetric) -> Option<&'a SimpleMatcher>
    ensures matcher { option_copied result ≡ pulled_matcher matchers.now metric.now }
    ensures askable { All MayAsk matchers.now → IfSome result (λ matcher. IsAskable matcher.now) }
{
    match matchers.get(metric.what as usize) {
        Some(LMatcher::Simple(matcher)) => Some(matcher),
        _ => None,
    }
}

// The id of the atoms that a matcher means; 0 where it names none, which is no atom's.
fn id_of(matcher: &SimpleMatcher) -> u32
    ensures { result ≡ number_set matcher.now.atom_id }
{
    match matcher.atom_id {
        Some(id) if id >= 0 => id.cast_unsigned(),
        _ => 0,
    }
}

// The atoms of an outcome; a failed pull has none.
fn atoms_of(outcome: &PullOutcome) -> Option<&[Atom]>
    ensures atoms { option_map (λ atoms. atoms.now) result ≡ atoms_in outcome.now }
    ensures sound { HoldsSoundAtoms outcome.now → IfSome result (λ atoms. All HasNoFault atoms.now) }
{
    match outcome {
        PullOutcome::Atoms(atoms) => Some(atoms.as_slice()),
        PullOutcome::Failed => None,
    }
}
