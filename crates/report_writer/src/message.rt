//! Messages: the fields of each are written where they stay, after a place for their count.
ghost use Rattle.std.specs.Prelude.{◌≡◌, ℕ, ℤ, ◌≤◌, ◌<◌, ◌^◌, ◌++◌, List, All, OnOk};
ghost use Rattle.proto_wire.specs.Spelling.{bytes_field};
ghost use Rattle.report_writer.specs.ReportSpelling.{signed_field, field_if_above, repeated_field, wrapper_field};

use crate::numbers::WRAPPER_DATA;
use proto_wire::Writer;
use std::alloc::AllocError;

/// What a report shows as a message of its own.
pub trait Message {
    /// The one spelling of its fields.
    ghost spelled: { Self → List ℕ };

    /// The fields of its atoms have numbers that a field may have.
    ghost is_writable: { Self → Type 0 } = { λ _. Unit {0} };

    /// Adds its fields.
    fn put_fields(&self, out: &mut Writer) -> Result<(), AllocError>
        requires { is_writable self.now }
        ensures { OnOk result (out.new ≡ out.old ++ spelled self.now) };
}

/// Adds a number that may be below 0.
pub fn put_signed(out: &mut Writer, number: u32, value: i64) -> Result<(), AllocError>
    requires named { 1 ≤ number }
    requires fits { number < 2 ^ 29 }
    ensures { OnOk result (out.new ≡ out.old ++ signed_field number value) }
{
    out.varint_field(number, value.cast_unsigned())
}

/// Adds a number, if it is above 0.
pub fn put_if_above(out: &mut Writer, number: u32, value: u64) -> Result<(), AllocError>
    requires named { 1 ≤ number }
    requires fits { number < 2 ^ 29 }
    ensures { OnOk result (out.new ≡ out.old ++ field_if_above number value) }
{
    if value > 0 {
        out.varint_field(number, value)
    } else {
        Ok(())
    }
}

/// Adds a field that holds a message.
pub fn put_message<T: Message>(out: &mut Writer, number: u32, item: &T) -> Result<(), AllocError>
    requires named { 1 ≤ number }
    requires fits { number < 2 ^ 29 }
    requires writable { T.is_writable item.now }
    ensures { OnOk result (out.new ≡ out.old ++ bytes_field number (T.spelled item.now)) }
{
    let place = out.begin_field(number)?;
    item.put_fields(out)?;
    out.end_field(place)
}

/// Adds a field of one number for each of these messages.
pub fn put_messages<T: Message>(
    out: &mut Writer,
    number: u32,
    items: &[T],
) -> Result<(), AllocError>
    requires named { 1 ≤ number }
    requires fits { number < 2 ^ 29 }
    requires writable { All T.is_writable items.now }
    ensures { OnOk result (out.new ≡ out.old ++ repeated_field number T.spelled items.now) }
{
    for item in items {
        put_message(out, number, item)?;
    }
    Ok(())
}

/// Adds a field that holds the rows of a metric, also where there are none.
pub fn put_wrapped<T: Message>(out: &mut Writer, number: u32, rows: &[T]) -> Result<(), AllocError>
    requires named { 1 ≤ number }
    requires fits { number < 2 ^ 29 }
    requires writable { All T.is_writable rows.now }
    ensures { OnOk result (out.new ≡ out.old ++ wrapper_field number T.spelled rows.now) }
{
    let place = out.begin_field(number)?;
    put_messages(out, WRAPPER_DATA, rows)?;
    out.end_field(place)
}
