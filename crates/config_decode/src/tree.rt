//! Parts of the tree that are read from a message.
ghost use Rattle.std.specs.Prelude.{◌≡◌, List, [], ◌∷◌, ◌++◌, map, IfOk, OnOk};
ghost use Rattle.std.specs.Option.{option_map};
ghost use Rattle.proto_wire.specs.Fields.{FieldOf};
ghost use Rattle.config_decode.specs.Values as values;

use crate::message::Message;
use crate::profile::{Kind, Shape};
use sd_base::Seq;
use std::alloc::{AllocError, Global};

/// What a message says.
pub trait FromMessage: Sized + Drop {
    /// The definition, by the message's records.
    ghost tree: { List FieldOf → Self };

    fn from_message(alloc: Global, message: &Message<'_>) -> Result<Self, AllocError>
        ensures { IfOk result (λ read. read ≡ tree message.now) };
}

/// What a field that is a message says, if it is there.
pub fn optional<T: FromMessage>(
    alloc: Global,
    message: &Message<'_>,
    number: u32,
) -> Result<Option<T>, AllocError>
    ensures { IfOk result (λ read. read ≡ option_map T.tree (values.message number message.now)) }
{
    match message.read_message(alloc, number)? {
        Some(inner) => Ok(Some(T::from_message(alloc, &inner)?)),
        None => Ok(None),
    }
}

/// What a field that is a message says, whose payloads are read as one.
pub fn merged<T: FromMessage>(
    alloc: Global,
    message: &Message<'_>,
    number: u32,
) -> Result<T, AllocError>
    ensures { IfOk result (λ read.
        read ≡ T.tree (values.records_of_all (values.payloads number message.now))) }
{
    let inner = message.read_merged(alloc, number)?;
    T::from_message(alloc, &inner)
}

/// What each message of a repeated field says.
pub fn repeated<T: FromMessage>(
    alloc: Global,
    message: &Message<'_>,
    number: u32,
) -> Result<Seq<T>, AllocError>
    ensures { IfOk result (λ read. read ≡ map T.tree (values.messages number message.now)) }
{
    let messages = message.read_messages(alloc, number)?;
    read_all(alloc, messages.as_slice())
}

/// The same of a field of such a message, if the profile lists it as one of messages. Any other says nothing.
pub fn listed<T: FromMessage>(
    alloc: Global,
    message: &Message<'_>,
    kind: Kind,
    number: u32,
) -> Result<Seq<T>, AllocError>
    ensures { IfOk result (λ read.
        read ≡ map T.tree (values.listed_messages kind number message.now)) }
{
    match kind.shape(number) {
        Shape::Message(_) => repeated(alloc, message, number),
        _ => Ok(Seq::new(alloc)),
    }
}

// What each of these messages says.
fn read_all<T: FromMessage>(alloc: Global, messages: &[Message<'_>]) -> Result<Seq<T>, AllocError>
    ensures { IfOk result (λ read. read ≡ map T.tree messages.now) }
{
    let mut read = Seq::new(alloc);
    for inner in messages {
        add_read(alloc, inner, &mut read)?;
    }
    Ok(read)
}

// Adds what a message says.
fn add_read<T: FromMessage>(
    alloc: Global,
    message: &Message<'_>,
    read: &mut Seq<T>,
) -> Result<(), AllocError>
    ensures { OnOk result (read.new ≡ read.old ++ T.tree message.now ∷ []) }
{
    read.push(T::from_message(alloc, message)?)
}
