//! Trees of field numbers.
ghost use Rattle.std.specs.Prelude.{◌≡◌, map, IfOk};
ghost use Rattle.config_decode.specs.FieldNumbers.{leaf_child};
ghost use Rattle.config_decode.specs.Tree as tree;
ghost use Rattle.config_decode.specs.Values as values;

use crate::message::Message;
use crate::numbers;
use crate::tree::FromMessage;
use config_types::FieldMatcher;
use sd_base::Seq;
use std::alloc::{AllocError, Global};

/// How many messages may stand inside one another. What is deeper was refused before.
pub const MAX_LEVELS: u32 = 100;

impl FromMessage for FieldMatcher {
    ghost use Rattle.config_decode.specs.Tree.{field_matcher_of};

    ghost tree = { field_matcher_of };

    fn from_message(alloc: Global, message: &Message<'_>) -> Result<FieldMatcher, AllocError> {
        field_matcher(alloc, MAX_LEVELS, message)
    }
}

// A tree in which so many messages may stand inside one another.
#[cycle(levels)]
#[tactic(auto, using(crate::proofs::TreeLemmas::field_matcher_step))]
fn field_matcher(
    alloc: Global,
    levels: u32,
    message: &Message<'_>,
) -> Result<FieldMatcher, AllocError>
    ensures { IfOk result (λ read. read ≡ tree.field_matcher_in levels message.now) }
{
    Ok(FieldMatcher {
        field: message.read_scalar(numbers::LEAF_FIELD),
        position: message.read_scalar(numbers::LEAF_POSITION),
        children: children(alloc, levels, message)?,
    })
}

// What is below such a tree.
#[cycle(levels)]
#[tactic(auto, using(crate::proofs::TreeLemmas::children_step))]
fn children(
    alloc: Global,
    levels: u32,
    message: &Message<'_>,
) -> Result<Seq<FieldMatcher>, AllocError>
    ensures { IfOk result (λ read.
        read ≡ tree.children_in levels (values.messages leaf_child message.now)) }
{
    if levels == 0 {
        return Ok(Seq::new(alloc));
    }
    let messages = message.read_messages(alloc, numbers::LEAF_CHILD)?;
    field_matchers(alloc, levels - 1, messages.as_slice())
}

// The trees of these messages.
#[cycle(levels)]
fn field_matchers(
    alloc: Global,
    levels: u32,
    messages: &[Message<'_>],
) -> Result<Seq<FieldMatcher>, AllocError>
    ensures { IfOk result (λ read. read ≡ map (tree.field_matcher_in levels) messages.now) }
{
    let mut trees = Seq::new(alloc);
    for inner in messages {
        trees.push(field_matcher(alloc, levels, inner)?)?;
    }
    Ok(trees)
}
