//! What makes a metric active.
ghost use Rattle.std.specs.Prelude.{◌≡◌, map, IfOk};
ghost use Rattle.std.specs.List.{All, list_any};
ghost use Rattle.field_select.specs.WellFormed.{number_or_zero};
ghost use Rattle.link_rules.specs.LinkFaults.{Links};
ghost use Rattle.config_links.specs.MetricActivations as words;

use crate::LActivation;
use crate::reasons::{Reason, make_fault, place_of_option};
use config_types::{ActivationDef, Common};
use link_rules::{Kind, Known, LinkError};
use sd_base::Seq;
use std::alloc::{AllocError, Global};

/// A second in nanoseconds.
pub const SECOND_NANOS: u64 = 1_000_000_000;

/// A number that is set and isn't negative, or 0.
pub fn amount_of(number: Option<i64>) -> u64
    ensures { result ≡ number_or_zero number }
{
    match number {
        Some(number) if number > 0 => number as u64,
        _ => 0,
    }
}

// Whether an activation doesn't say what begins it, or how long it lasts.
fn is_half(def: &ActivationDef) -> bool
    ensures { result ≡ words.is_half def.now }
{
    def.start.is_none() || def.ttl.is_none()
}

// Whether it is so of one of these.
fn is_any_half(defs: &[ActivationDef]) -> bool
    ensures { result ≡ list_any words.is_half defs.now }
{
    defs.iter().any(|def| is_half(def))
}

// An activation, linked.
fn activation_of(matchers: &Known, def: &ActivationDef) -> LActivation
    requires { words.IsBrief def.now }
    ensures { result ≡ words.linked_activation matchers.now def.now }
{
    LActivation {
        start: matchers.locate(def.start.unwrap_or(0)),
        ttl: amount_of(def.ttl) * SECOND_NANOS,
        cancel: place_of_option(matchers, def.cancel),
    }
}

// All activations, linked.
fn all_activations(
    alloc: Global,
    matchers: &Known,
    defs: &[ActivationDef],
) -> Result<Seq<LActivation>, AllocError>
    requires { words.AreBrief defs.now }
    ensures { IfOk result (λ made. made ≡ map (words.linked_activation matchers.now) defs.now) }
{
    let mut made = Seq::new(alloc);
    for def in defs {
        made.push(activation_of(matchers, def))?;
    }
    Ok(made)
}

// The activations of a kind of metric, linked. A duration has none.
#[tactic(auto, unfolding(crate::specs::MetricActivations::linked_activations))]
fn kind_activations(
    alloc: Global,
    matchers: &Known,
    kind: &Kind,
    defs: &[ActivationDef],
) -> Result<Seq<LActivation>, AllocError>
    requires { words.AreBrief defs.now }
    ensures { IfOk result (λ made. made ≡
        words.linked_activations matchers.now kind.now defs.now) }
{
    match kind {
        Kind::Duration { .. } => Ok(Seq::new(alloc)),
        _ => all_activations(alloc, matchers, defs),
    }
}

/// The activations of a metric, which acts on what was pulled or not, or what they can't be.
#[tactic(auto, unfolding(crate::specs::MetricActivations::bad_activations))]
pub fn activations_in(
    alloc: Global,
    matchers: &Known,
    common: &Common,
    kind: &Kind,
    pulled: bool,
) -> Result<Seq<LActivation>, LinkError>
    requires { words.AreBrief common.now.activations }
    ensures { Links result (words.bad_activations common.now pulled)
        (words.linked_activations matchers.now kind.now common.now.activations) }
{
    let defs = common.activations.as_slice();
    if is_any_half(defs) {
        return Err(LinkError::Fault(make_fault(common.id, Reason::BadActivation)));
    }
    if pulled && !defs.is_empty() {
        return Err(LinkError::Fault(make_fault(common.id, Reason::PulledActivation)));
    }
    let linked = kind_activations(alloc, matchers, kind, defs)?;
    Ok(linked)
}
