//! The records of a message, and what its fields say.
ghost use Rattle.std.specs.Prelude.{◌≡◌, ◌∷◌, ◌++◌, ◌<◌, ◌^◌, ℕ, List, [], length, map, IfOk, IfSome, OnOk};
ghost use Rattle.std.specs.Option.{option_copied};
ghost use Rattle.std.specs.List.{cons_option};
ghost use Rattle.proto_wire.specs.Fields.{field_view, inside_of};
ghost use Rattle.config_decode.specs.Walk.{packed_at};
ghost use Rattle.config_decode.specs.Values as values;
ghost use Rattle.config_decode.specs.Values.{records_of};

use crate::scalar::Scalar;
use config_types::Bytes;
use proto_wire::{Body, Field, Records, varint_of};
use sd_base::Seq;
use std::alloc::{AllocError, Global};
use std::marker::Model;

/// The records of a message, whose payloads are borrowed. Contracts see the list of its records.
#[derive(Drop)]
pub struct Message<'a> {
    records: Vec<Field<'a>>,
}

impl<'a> Model for Message<'a> {
    ghost use Rattle.std.specs.Prelude.{List, map};
    ghost use Rattle.proto_wire.specs.Fields.{FieldOf, field_view};
    ghost use Rattle.config_decode.specs.Short.{HaveShortPayloads};

    ghost Value = { List FieldOf };

    ghost view = { λ m. map field_view m.records.items };

    ghost invariant = { λ m. HaveShortPayloads (map field_view m.records.items) };
}

/// What is made of a payload.
trait FromPayload<'a>: Sized + Drop {
    /// What a payload says.
    ghost said: { List ℕ → Self };

    fn from_payload(alloc: Global, payload: &'a [u8]) -> Result<Self, AllocError>
        requires { length payload.now < 2 ^ 32 }
        ensures { IfOk result (λ made. made ≡ said payload.now) };
}

impl<'a> FromPayload<'a> for Bytes {
    ghost said = { λ payload. payload };

    fn from_payload(alloc: Global, payload: &'a [u8]) -> Result<Bytes, AllocError> {
        Seq::from_slice(alloc, payload)
    }
}

impl<'a> FromPayload<'a> for Message<'a> {
    ghost said = { records_of };

    fn from_payload(alloc: Global, payload: &'a [u8]) -> Result<Message<'a>, AllocError> {
        Message::read(alloc, payload)
    }
}

impl<'a> Message<'a> {
    /// A message without records. It takes no memory yet.
    pub fn new(alloc: Global) -> Message<'a>
        ensures { result ≡ [] }
    {
        Message {
            records: Vec::new(alloc),
        }
    }

    /// The records of these bytes.
    pub fn read(alloc: Global, bytes: &'a [u8]) -> Result<Message<'a>, AllocError>
        requires { length bytes.now < 2 ^ 32 }
        ensures { IfOk result (λ message. message ≡ records_of bytes.now) }
    {
        let mut fields = Vec::new(alloc);
        let mut records = Records::new(bytes, 0, 0);
        while let Ok(Some(field)) = records.next() {
            fields.push(field)?;
        }
        Ok(Message { records: fields })
    }

    /// A field that holds one number: what the last that means anything means.
    pub fn read_scalar<T: Scalar>(&self, number: u32) -> Option<T>
        ensures { result ≡ values.scalar T.meaning number self.now }
    {
        let mut last = None;
        for field in self.records.iter() {
            if let Some(value) = varint_in(number, field)
                && let Some(meant) = T::from_varint(value)
            {
                last = Some(meant);
            }
        }
        last
    }

    /// A field that holds numbers: what they mean.
    pub fn read_scalars<T: Scalar>(&self, alloc: Global, number: u32) -> Result<Seq<T>, AllocError>
        ensures { IfOk result (λ scalars. scalars ≡ values.scalars T.meaning number self.now) }
    {
        let numbers = self.varints(alloc, number)?;
        let mut scalars = Seq::new(alloc);
        for value in numbers.iter() {
            if let Some(meant) = T::from_varint(*value) {
                scalars.push(meant)?;
            }
        }
        Ok(scalars)
    }

    /// All numbers of a field, packed or not.
    fn varints(&self, alloc: Global, number: u32) -> Result<Vec<u64>, AllocError>
        ensures { IfOk result (λ numbers. numbers.items ≡ values.numbers number self.now) }
    {
        let mut numbers = Vec::new(alloc);
        for field in self.records.iter() {
            add_numbers(&mut numbers, number, field)?;
        }
        Ok(numbers)
    }

    /// What each payload of a field says.
    fn read_payloads<T: FromPayload<'a>>(
        &self,
        alloc: Global,
        number: u32,
    ) -> Result<Vec<T>, AllocError>
        ensures { IfOk result (λ said. said.items ≡ map T.said (values.payloads number self.now)) }
    {
        let mut said = Vec::new(alloc);
        for field in self.records.iter() {
            add_payload(alloc, number, field, &mut said)?;
        }
        Ok(said)
    }

    /// A field of type string.
    pub fn read_string(&self, alloc: Global, number: u32) -> Result<Option<Bytes>, AllocError>
        ensures { IfOk result (λ string. string ≡ values.last (values.payloads number self.now)) }
    {
        let mut strings: Vec<Bytes> = self.read_payloads(alloc, number)?;
        Ok(strings.pop())
    }

    /// A repeated field of type string.
    pub fn read_strings(&self, alloc: Global, number: u32) -> Result<Seq<Bytes>, AllocError>
        ensures { IfOk result (λ strings. strings ≡ values.payloads number self.now) }
    {
        Ok(Seq::from_vec(self.read_payloads(alloc, number)?))
    }

    /// A repeated field of messages.
    pub fn read_messages(&self, alloc: Global, number: u32) -> Result<Vec<Message<'a>>, AllocError>
        ensures { IfOk result (λ messages. messages.items ≡ values.messages number self.now) }
    {
        self.read_payloads(alloc, number)
    }

    /// A field that is a message: all its payloads, read as one.
    #[tactic(auto, using(crate::proofs::ValuesLemmas::all_records))]
    pub fn read_merged(&self, alloc: Global, number: u32) -> Result<Message<'a>, AllocError>
        ensures { IfOk result (λ message.
            message ≡ values.records_of_all (values.payloads number self.now)) }
    {
        let messages = self.read_messages(alloc, number)?;
        Message::of_all(alloc, messages.as_slice())
    }

    /// A field that is a message, if there is any.
    #[tactic(auto, using(crate::proofs::ValuesLemmas::no_message, crate::proofs::ValuesLemmas::one_message))]
    pub fn read_message(
        &self,
        alloc: Global,
        number: u32,
    ) -> Result<Option<Message<'a>>, AllocError>
        ensures { IfOk result (λ message. message ≡ values.message number self.now) }
    {
        let messages = self.read_messages(alloc, number)?;
        if messages.is_empty() {
            return Ok(None);
        }
        Ok(Some(Message::of_all(alloc, messages.as_slice())?))
    }

    // The records of all these messages, as one.
    #[tactic(auto, using(std::proofs::lemmas::List::flat_map_more, crate::proofs::ValuesLemmas::short_append))]
    fn of_all(alloc: Global, messages: &[Message<'a>]) -> Result<Message<'a>, AllocError>
        ensures { IfOk result (λ message. message ≡ values.together messages.now) }
    {
        let mut fields = Vec::new(alloc);
        for message in messages {
            fields.extend_from_slice(message.records.as_slice())?;
        }
        Ok(Message { records: fields })
    }

    /// The records of the member of a oneof that was set last, back to where another member was set.
    pub fn read_oneof_run(&self, alloc: Global, members: &[u32]) -> Result<Message<'a>, AllocError>
        ensures { IfOk result (λ run. run ≡ values.oneof_run members.now self.now) }
    {
        let mut run = Message::new(alloc);
        for field in self.records.iter() {
            if members.contains(&field.number) {
                run.push_member(field)?;
            }
        }
        Ok(run)
    }

    // A member is set after those of a run: it goes on with a run of its number, or begins a new one.
    fn push_member(&mut self, field: &Field<'a>) -> Result<(), AllocError>
        requires { length (inside_of (field_view field.now).body) < 2 ^ 32 }
        ensures { OnOk result (self.new ≡ values.run_with (field_view field.now) self.old) }
    {
        if self.number() != Some(field.number) {
            self.records.clear();
        }
        self.records.push(*field)?;
        Ok(())
    }

    /// The number of the first record.
    pub fn number(&self) -> Option<u32>
        ensures { result ≡ values.first_number self.now }
    {
        match self.records.first() {
            Some(field) => Some(field.number),
            None => None,
        }
    }
}

// The number of a record, if it is of this field and holds one.
fn varint_in(number: u32, field: &Field<'_>) -> Option<u64>
    ensures { cons_option result [] ≡ values.varints number (field_view field.now ∷ []) }
{
    match field.body {
        Body::Varint(value) if field.number == number => Some(value),
        _ => None,
    }
}

// The bytes of a record, if it is of this field and holds some.
fn payload_in<'a>(number: u32, field: &Field<'a>) -> Option<&'a [u8]>
    ensures payload { cons_option (option_copied result) []
        ≡ values.payloads number (field_view field.now ∷ []) }
    ensures inside { IfSome result (λ bytes. bytes.now ≡ inside_of (field_view field.now).body) }
{
    match field.body {
        Body::Bytes(bytes) if field.number == number => Some(bytes),
        _ => None,
    }
}

// Adds what the bytes of a record say, if it is of this field.
fn add_payload<'a, T: FromPayload<'a>>(
    alloc: Global,
    number: u32,
    field: &Field<'a>,
    said: &mut Vec<T>,
) -> Result<(), AllocError>
    requires { length (inside_of (field_view field.now).body) < 2 ^ 32 }
    ensures { OnOk result (said.new.items
        ≡ said.old.items ++ map T.said (values.payloads number (field_view field.now ∷ []))) }
{
    if let Some(bytes) = payload_in(number, field) {
        said.push(T::from_payload(alloc, bytes)?)?;
    }
    Ok(())
}

// Adds the numbers of a record, if it is of this field: one, or packed ones.
fn add_numbers(numbers: &mut Vec<u64>, number: u32, field: &Field<'_>) -> Result<(), AllocError>
    ensures { OnOk result (numbers.new.items
        ≡ numbers.old.items ++ values.numbers number (field_view field.now ∷ [])) }
{
    match field.body {
        Body::Varint(value) if field.number == number => numbers.push(value)?,
        Body::Bytes(packed) if field.number == number => unpack(numbers, packed)?,
        _ => {}
    }
    Ok(())
}

// Adds the numbers of a packed record.
fn unpack(numbers: &mut Vec<u64>, packed: &[u8]) -> Result<(), AllocError>
    ensures { OnOk result (numbers.new.items
        ≡ numbers.old.items ++ (packed_at 0 packed.now).numbers) }
{
    let mut rest = packed;
    while !rest.is_empty() {
        let Ok((number, left)) = varint_of(0, rest) else {
            return Ok(());
        };
        numbers.push(number)?;
        rest = left;
    }
    Ok(())
}
