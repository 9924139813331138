//! The messages of a report, each read as what it says.
ghost use Rattle.std.specs.Prelude.{◌≡◌, ℕ, ◌<◌, ◌^◌, ◌++◌, List, [], length, map, drop, IfOk, IfSome, OnOk};
ghost use Rattle.proto_wire.specs.Fields.{body_view};
ghost use Rattle.report_show.specs.Reading as reading;
ghost use Rattle.report_show.specs.Reading.{contents_left, contents_in};
ghost use Rattle.report_show.specs.Steps.{content_of};

use crate::fields::{
    Said, bits_of, bytes_of, low_half, next_bytes, next_field, next_number, number_in, number_of,
    read_all,
};
use crate::numbers;
use atom_record::{Slice, Value};
use proto_wire::{Body, Field, Records};
use report_writer::{
    AlarmTree, AtomBucket, AtomMsg, Drop64, EventTree, GaugeTree, LeafTree, MetricBody, MetricTree,
    NumBucket, NumTree, Part, PartBody,
};
use sd_base::Seq;
use std::alloc::{AllocError, Global};

// The value that a field of a leaf says.
fn value_from(alloc: Global, field: &Field<'_>) -> Result<Option<Value>, AllocError>
    ensures { IfOk result (λ value. value ≡ reading.value_said (content_of field.now)) }
{
    if field.number == numbers::DIMENSION_STR {
        return Ok(Some(Value::Str(Seq::from_slice(alloc, bytes_of(field.body))?)));
    }
    if field.number == numbers::DIMENSION_INT {
        return Ok(Some(Value::Int(low_half(number_of(field.body)).cast_signed())));
    }
    if field.number == numbers::DIMENSION_LONG {
        return Ok(Some(Value::Long(number_of(field.body).cast_signed())));
    }
    if field.number == numbers::DIMENSION_BOOL {
        return Ok(Some(Value::Bool(number_of(field.body) != 0)));
    }
    if field.number == numbers::DIMENSION_FLOAT {
        return Ok(Some(Value::Bits32(bits_of(field.body))));
    }
    if field.number == numbers::DIMENSION_RAW {
        return Ok(Some(Value::Raw(Seq::from_slice(alloc, bytes_of(field.body))?)));
    }
    Ok(None)
}

// A leaf with one more field.
fn leaf_with(alloc: Global, leaf: LeafTree, field: &Field<'_>) -> Result<LeafTree, AllocError>
    ensures { IfOk result (λ more. more ≡ reading.leaf_adding leaf (content_of field.now)) }
{
    if field.number == numbers::DIMENSION_PLACE {
        return Ok(LeafTree {
            place: low_half(number_of(field.body)),
            value: leaf.value,
        });
    }
    Ok(LeafTree {
        place: leaf.place,
        value: value_from(alloc, field)?,
    })
}

// A leaf with the next field, if there is any.
fn leaf_with_next(
    alloc: Global,
    leaf: LeafTree,
    records: &mut Records<'_>,
) -> Result<LeafTree, AllocError>
    ensures leaf { IfOk result
        (λ more. more ≡ reading.leaf_adding_first leaf (contents_left records.old)) }
    ensures rest { contents_left records.new ≡ drop 1 (contents_left records.old) }
{
    match next_field(records) {
        Some(field) => leaf_with(alloc, leaf, &field),
        None => Ok(leaf),
    }
}

impl Said for LeafTree {
    ghost use Rattle.report_show.specs.Reading.{read_leaf};

    ghost said = { read_leaf };

    #[tactic(auto, unfolding(crate::specs::Reading::read_leaf))]
    fn read(alloc: Global, bytes: &[u8]) -> Result<LeafTree, AllocError> {
        let mut records = Records::new(bytes, 0, 0);
        let none = LeafTree {
            place: 0,
            value: None,
        };
        let leaf = leaf_with_next(alloc, none, &mut records)?;
        leaf_with_next(alloc, leaf, &mut records)
    }
}

// A slice, by the number of its second field.
fn slice_with(atom_id: u32, records: &mut Records<'_>) -> Slice
    ensures { result ≡ reading.slice_under atom_id (contents_left records.old) }
{
    match next_field(records) {
        Some(field) if field.number == numbers::SLICE_GROUP_ID => Slice::Group {
            atom_id,
            group: number_of(field.body).cast_signed(),
        },
        Some(field) => Slice::Plain {
            atom_id,
            value: low_half(number_of(field.body)).cast_signed(),
        },
        None => Slice::Plain { atom_id, value: 0 },
    }
}

impl Said for Slice {
    ghost use Rattle.report_show.specs.Reading.{read_slice};

    ghost said = { read_slice };

    #[tactic(auto, unfolding(crate::specs::Reading::read_slice))]
    fn read(_alloc: Global, bytes: &[u8]) -> Result<Slice, AllocError> {
        let mut records = Records::new(bytes, 0, 0);
        let atom_id = low_half(next_number(&mut records));
        Ok(slice_with(atom_id, &mut records))
    }
}

impl Said for NumBucket {
    ghost use Rattle.report_show.specs.Reading.{read_bucket};

    ghost said = { read_bucket };

    #[tactic(auto, unfolding(crate::specs::Reading::read_bucket))]
    fn read(_alloc: Global, bytes: &[u8]) -> Result<NumBucket, AllocError> {
        let mut records = Records::new(bytes, 0, 0);
        let start = next_number(&mut records);
        let end = next_number(&mut records);
        let value = next_number(&mut records).cast_signed();
        Ok(NumBucket { start, end, value })
    }
}

impl Said for NumTree {
    ghost use Rattle.report_show.specs.Reading.{read_row};

    ghost said = { read_row };

    #[tactic(auto, unfolding(crate::specs::Reading::read_row))]
    fn read(alloc: Global, bytes: &[u8]) -> Result<NumTree, AllocError> {
        let leaves = read_all(alloc, bytes, numbers::DATA_LEAF)?;
        let slices = read_all(alloc, bytes, numbers::DATA_SLICE)?;
        let buckets = read_all(alloc, bytes, numbers::DATA_BUCKET)?;
        let overflow = number_in(bytes, numbers::DATA_OVERFLOW) != 0;
        Ok(NumTree {
            leaves,
            slices,
            overflow,
            buckets,
        })
    }
}

// What a field of an atom holds.
fn part_body(alloc: Global, body: Body<'_>) -> Result<PartBody, AllocError>
    ensures { IfOk result (λ held. held ≡ reading.held_part (body_view body.entry)) }
{
    Ok(match body {
        Body::Varint(number) => PartBody::Num(number),
        Body::Bytes(bytes) => PartBody::Chunk(Seq::from_slice(alloc, bytes)?),
        Body::Fixed32(bits) => PartBody::Bits(bits),
        _ => PartBody::Num(0),
    })
}

// The fields of an atom.
fn read_parts(alloc: Global, bytes: &[u8]) -> Result<Seq<Part>, AllocError>
    requires { length bytes.now < 2 ^ 32 }
    ensures { IfOk result (λ parts. parts ≡ map reading.part_of (contents_in bytes.now)) }
{
    let mut parts = Seq::new(alloc);
    let mut records = Records::new(bytes, 0, 0);
    while let Some(field) = next_field(&mut records) {
        let body = part_body(alloc, field.body)?;
        parts.push(Part {
            number: field.number,
            body,
        })?;
    }
    Ok(parts)
}

impl Said for AtomMsg {
    ghost use Rattle.report_show.specs.Reading.{read_atom};

    ghost said = { read_atom };

    #[tactic(auto, unfolding(crate::specs::Reading::read_atom))]
    fn read(alloc: Global, bytes: &[u8]) -> Result<AtomMsg, AllocError> {
        let mut records = Records::new(bytes, 0, 0);
        let (id, inside) = next_bytes(&mut records);
        let parts = read_parts(alloc, inside)?;
        Ok(AtomMsg { id, parts })
    }
}

impl Said for AtomBucket {
    ghost use Rattle.report_show.specs.Reading.{read_samples};

    ghost said = { read_samples };

    #[tactic(auto, unfolding(crate::specs::Reading::read_samples))]
    fn read(alloc: Global, bytes: &[u8]) -> Result<AtomBucket, AllocError> {
        let mut records = Records::new(bytes, 0, 0);
        let start = next_number(&mut records);
        let end = next_number(&mut records);
        let atoms = read_all(alloc, bytes, numbers::BUCKET_ATOM)?;
        Ok(AtomBucket { start, end, atoms })
    }
}

impl Said for GaugeTree {
    ghost use Rattle.report_show.specs.Reading.{read_gauge};

    ghost said = { read_gauge };

    #[tactic(auto, unfolding(crate::specs::Reading::read_gauge))]
    fn read(alloc: Global, bytes: &[u8]) -> Result<GaugeTree, AllocError> {
        let leaves = read_all(alloc, bytes, numbers::DATA_LEAF)?;
        let slices = read_all(alloc, bytes, numbers::DATA_SLICE)?;
        let buckets = read_all(alloc, bytes, numbers::DATA_BUCKET)?;
        Ok(GaugeTree {
            leaves,
            slices,
            buckets,
        })
    }
}

impl Said for EventTree {
    ghost use Rattle.report_show.specs.Reading.{read_event};

    ghost said = { read_event };

    #[tactic(auto, unfolding(crate::specs::Reading::read_event))]
    fn read(alloc: Global, bytes: &[u8]) -> Result<EventTree, AllocError> {
        let mut records = Records::new(bytes, 0, 0);
        let at = next_number(&mut records);
        let (_, inside) = next_bytes(&mut records);
        let atom = AtomMsg::read(alloc, inside)?;
        Ok(EventTree { at, atom })
    }
}

// The rows of a metric, by the number of their field.
fn read_body(alloc: Global, number: u32, bytes: &[u8]) -> Result<MetricBody, AllocError>
    requires { length bytes.now < 2 ^ 32 }
    ensures { IfOk result (λ body. body ≡ reading.body_said number bytes.now) }
{
    if number == numbers::SHOWN_EVENTS {
        return Ok(MetricBody::Events(read_all(alloc, bytes, numbers::WRAPPER_DATA)?));
    }
    if number == numbers::SHOWN_COUNTS {
        return Ok(MetricBody::Counts(read_all(alloc, bytes, numbers::WRAPPER_DATA)?));
    }
    if number == numbers::SHOWN_DURATIONS {
        return Ok(MetricBody::Durations(read_all(alloc, bytes, numbers::WRAPPER_DATA)?));
    }
    if number == numbers::SHOWN_VALUES {
        return Ok(MetricBody::Values(read_all(alloc, bytes, numbers::WRAPPER_DATA)?));
    }
    Ok(MetricBody::Gauges(read_all(alloc, bytes, numbers::WRAPPER_DATA)?))
}

impl Said for MetricTree {
    ghost use Rattle.report_show.specs.Reading.{read_metric};

    ghost said = { read_metric };

    #[tactic(auto, unfolding(crate::specs::Reading::read_metric))]
    fn read(alloc: Global, bytes: &[u8]) -> Result<MetricTree, AllocError> {
        let mut records = Records::new(bytes, 0, 0);
        let id = next_number(&mut records).cast_signed();
        let (number, rows) = next_bytes(&mut records);
        let body = read_body(alloc, number, rows)?;
        Ok(MetricTree {
            id,
            base: number_in(bytes, numbers::SHOWN_BASE),
            size: number_in(bytes, numbers::SHOWN_SIZE),
            dropped: number_in(bytes, numbers::SHOWN_DROPPED),
            not_kept: number_in(bytes, numbers::SHOWN_NOT_KEPT),
            missing: number_in(bytes, numbers::SHOWN_MISSING),
            body,
        })
    }
}

impl Said for Drop64 {
    ghost use Rattle.report_show.specs.Reading.{read_drop};

    ghost said = { read_drop };

    #[tactic(auto, unfolding(crate::specs::Reading::read_drop))]
    fn read(_alloc: Global, bytes: &[u8]) -> Result<Drop64, AllocError> {
        let mut records = Records::new(bytes, 0, 0);
        let id = next_number(&mut records).cast_signed();
        let number = next_number(&mut records);
        Ok(Drop64 { id, number })
    }
}

impl Said for AlarmTree {
    ghost use Rattle.report_show.specs.Reading.{read_alarm};

    ghost said = { read_alarm };

    #[tactic(auto, unfolding(crate::specs::Reading::read_alarm))]
    fn read(alloc: Global, bytes: &[u8]) -> Result<AlarmTree, AllocError> {
        let mut records = Records::new(bytes, 0, 0);
        let id = next_number(&mut records).cast_signed();
        let at = next_number(&mut records);
        let sum = next_number(&mut records);
        let leaves = read_all(alloc, bytes, numbers::DATA_LEAF)?;
        let slices = read_all(alloc, bytes, numbers::DATA_SLICE)?;
        Ok(AlarmTree {
            id,
            at,
            sum,
            leaves,
            slices,
        })
    }
}
