//! Matchers.
ghost use Rattle.std.specs.Prelude.{◌≡◌, IfOk};
ghost use Rattle.config_decode.specs.Tree as tree;
ghost use Rattle.config_decode.specs.Values as values;

use crate::message::Message;
use crate::numbers;
use crate::tree::{FromMessage, merged, repeated};
use config_types::{Combo, MatcherBody, MatcherDef, SimpleMatcher};
use std::alloc::{AllocError, Global};

// The members of a matcher's oneof.
const MEMBERS: [u32; 2] = [numbers::MATCHER_SIMPLE, numbers::MATCHER_COMBINATION];

impl FromMessage for SimpleMatcher {
    ghost use Rattle.config_decode.specs.Tree.{simple_matcher_of};

    ghost tree = { simple_matcher_of };

    fn from_message(alloc: Global, message: &Message<'_>) -> Result<SimpleMatcher, AllocError> {
        Ok(SimpleMatcher {
            atom_id: message.read_scalar(numbers::SIMPLE_MATCHER_ATOM_ID),
            tests: repeated(alloc, message, numbers::SIMPLE_MATCHER_TEST)?,
        })
    }
}

impl FromMessage for Combo {
    ghost use Rattle.config_decode.specs.Tree.{combo_of};

    ghost tree = { combo_of };

    fn from_message(alloc: Global, message: &Message<'_>) -> Result<Combo, AllocError> {
        Ok(Combo {
            op: message.read_scalar(numbers::COMBINATION_OPERATION),
            children: message.read_scalars(alloc, numbers::COMBINATION_OPERAND)?,
        })
    }
}

impl FromMessage for MatcherDef {
    ghost use Rattle.config_decode.specs.Tree.{matcher_of};

    ghost tree = { matcher_of };

    fn from_message(alloc: Global, message: &Message<'_>) -> Result<MatcherDef, AllocError> {
        let id = message.read_scalar(numbers::MATCHER_ID);
        let run = message.read_oneof_run(alloc, &MEMBERS)?;
        let body = body(alloc, &run)?;
        Ok(MatcherDef { id, body })
    }
}

// The body, by the records of the member that was set last.
fn body(alloc: Global, run: &Message<'_>) -> Result<Option<MatcherBody>, AllocError>
    ensures { IfOk result (λ read. read ≡ tree.matcher_body_of run.now) }
{
    let Some(number) = run.number() else {
        return Ok(None);
    };
    if number == numbers::MATCHER_SIMPLE {
        return Ok(Some(MatcherBody::Simple(merged(alloc, run, number)?)));
    }
    let combo = merged(alloc, run, numbers::MATCHER_COMBINATION)?;
    Ok(Some(MatcherBody::Combo(combo)))
}
