//! Predicates.
ghost use Rattle.std.specs.Prelude.{◌≡◌, IfOk};
ghost use Rattle.config_decode.specs.Tree as tree;

use crate::message::Message;
use crate::numbers;
use crate::scalar::InitialValue;
use crate::tree::{FromMessage, merged, optional};
use config_types::{Combo, PredicateBody, PredicateDef, SimplePredicate};
use std::alloc::{AllocError, Global};

// The members of a predicate's oneof.
const MEMBERS: [u32; 2] = [numbers::PREDICATE_SIMPLE, numbers::PREDICATE_COMBINATION];

impl FromMessage for SimplePredicate {
    ghost use Rattle.config_decode.specs.Tree.{simple_predicate_of};

    ghost tree = { simple_predicate_of };

    fn from_message(alloc: Global, message: &Message<'_>) -> Result<SimplePredicate, AllocError> {
        let initial = message
            .read_scalar(numbers::SIMPLE_PREDICATE_INITIAL_VALUE)
            .unwrap_or(InitialValue::False);
        Ok(SimplePredicate {
            start: message.read_scalar(numbers::SIMPLE_PREDICATE_START),
            stop: message.read_scalar(numbers::SIMPLE_PREDICATE_STOP),
            stop_all: message.read_scalar(numbers::SIMPLE_PREDICATE_STOP_ALL),
            nesting: message
                .read_scalar(numbers::SIMPLE_PREDICATE_COUNT_NESTING)
                .unwrap_or(true),
            unknown: matches!(initial, InitialValue::Unknown),
            bound: message.read_scalar(numbers::KEY_BOUND),
            dims: optional(alloc, message, numbers::SIMPLE_PREDICATE_DIMENSIONS)?,
        })
    }
}

impl FromMessage for PredicateDef {
    ghost use Rattle.config_decode.specs.Tree.{predicate_of};

    ghost tree = { predicate_of };

    fn from_message(alloc: Global, message: &Message<'_>) -> Result<PredicateDef, AllocError> {
        let id = message.read_scalar(numbers::PREDICATE_ID);
        let run = message.read_oneof_run(alloc, &MEMBERS)?;
        let body = body(alloc, &run)?;
        Ok(PredicateDef { id, body })
    }
}

// The body, by the records of the member that was set last.
fn body(alloc: Global, run: &Message<'_>) -> Result<Option<PredicateBody>, AllocError>
    ensures { IfOk result (λ read. read ≡ tree.predicate_body_of run.now) }
{
    let Some(number) = run.number() else {
        return Ok(None);
    };
    if number == numbers::PREDICATE_SIMPLE {
        return Ok(Some(PredicateBody::Simple(merged(alloc, run, number)?)));
    }
    let combo = merged(alloc, run, numbers::PREDICATE_COMBINATION)?;
    Ok(Some(PredicateBody::Combo(combo)))
}
