//! The walk over a configuration: the first fault of the wire format, and the first record that isn't supported.
ghost use Rattle.std.specs.Prelude.{◌≡◌, ◌≤◌, ◌<◌, ◌+◌, ◌-◌, ◌^◌, length, OnOk};
ghost use Rattle.proto_wire.specs.Fields.{field_view, FitsOffsets};
ghost use Rattle.config_decode.specs.Walk.{packed_at, walk_in, most_levels, walk_of_record, walk_of_body, inner_walk, walk_of};
ghost use Rattle.config_decode.specs.Walks.{Walks, GoesTo, IsUnsupported, PacksWell};

use crate::DecodeFault;
use crate::profile::{Kind, Shape};
use proto_wire::{Body, Field, Records, WireFault, varint_of};
use sd_base::Path;
use std::alloc::{AllocError, Global};

/// Where a walk is, and what it found.
#[derive(Drop)]
struct Walker {
    alloc: Global,
    /// The numbers that lead to the message that is walked.
    path: Vec<u32>,
    /// The first record that isn't supported.
    unsupported: Option<Path>,
}

/// The path of the first record that isn't supported, if there is any, or the first fault of the wire format.
pub fn first_unsupported(alloc: Global, bytes: &[u8]) -> Result<Option<Path>, DecodeFault>
    requires { length bytes.now < 2 ^ 32 }
    ensures { IsUnsupported (walk_of bytes.now) result }
{
    let mut walker = Walker {
        alloc,
        path: Vec::new(alloc),
        unsupported: None,
    };
    walker.message(Kind::Config, Records::new(bytes, 0, 0))?;
    Ok(walker.unsupported)
}

impl Walker {
    // Walks the records of a message.
    #[cycle(walk)]
    fn message(&mut self, kind: Kind, records: Records<'_>) -> Result<(), DecodeFault>
        requires depth { length self.old.path.items ≡ records.depth }
        requires shallow { records.depth ≤ most_levels }
        ensures walked { Walks (walk_in (most_levels - records.entry.depth)
            self.old.path.items kind records.entry)
            self.old self.new result }
    {
        let mut records = records;
        while let Some(field) = records.next()? {
            self.record(kind, &records, &field)?;
        }
        Ok(())
    }

    // Walks one record of a message, and what it holds.
    #[cycle(walk)]
    fn record(
        &mut self,
        kind: Kind,
        records: &Records<'_>,
        field: &Field<'_>,
    ) -> Result<(), DecodeFault>
        requires depth { length self.old.path.items ≡ records.now.depth }
        requires shallow { records.now.depth ≤ most_levels }
        requires within { FitsOffsets (field_view field.now) }
        ensures walked { Walks (walk_of_record (inner_walk (most_levels - records.now.depth))
            kind self.old.path.items records.now.depth (field_view field.now)) self.old self.new result }
    {
        self.note(kind, field)?;
        self.inside(kind.shape(field.number), records, field)?;
        self.path.pop();
        Ok(())
    }

    // Goes to a record, and notes its path if it is the first that isn't supported.
    fn note(&mut self, kind: Kind, field: &Field<'_>) -> Result<(), AllocError>
        requires { length self.old.path.items ≤ most_levels }
        ensures { OnOk result (GoesTo kind (field_view field.now) self.old self.new) }
    {
        self.path.push(field.number)?;
        if self.unsupported.is_none() && kind.rejects(field) {
            self.unsupported = Some(Path::from_slice(self.alloc, self.path.as_slice())?);
        }
        Ok(())
    }

    // Walks what a record holds, to which the path leads.
    #[cycle(walk)]
    fn inside(
        &mut self,
        shape: Shape,
        records: &Records<'_>,
        field: &Field<'_>,
    ) -> Result<(), DecodeFault>
        requires depth { length self.old.path.items ≡ records.now.depth + 1 }
        requires within { FitsOffsets (field_view field.now) }
        ensures walked { Walks (walk_of_body
            (inner_walk (most_levels - records.now.depth) self.old.path.items)
            records.now.depth (field_view field.now) shape (field_view field.now).body) self.old self.new result }
    {
        match (shape, field.body) {
            (Shape::Message(kind), Body::Bytes(_)) => self.message(kind, records.enter(field)?),
            (Shape::Numbers, Body::Bytes(packed)) => Ok(check_packed(field.at, packed)?),
            _ => Ok(()),
        }
    }
}

// Reads packed numbers to their end. A fault is told of the record that begins at `at`.
fn check_packed(at: u32, packed: &[u8]) -> Result<(), WireFault>
    ensures { PacksWell (packed_at at packed.now) result }
{
    let mut rest = packed;
    while !rest.is_empty() {
        let (_, left) = varint_of(at, rest)?;
        rest = left;
    }
    Ok(())
}
