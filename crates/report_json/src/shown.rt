//! What is shown as JSON, and lists of it.
ghost use Rattle.std.specs.Prelude.{◌≡◌, ◌∷◌, ◌++◌, map, IfOk, OnOk};
ghost use Rattle.json.specs.Token.{key};
ghost use Rattle.serde_json.specs.Data.{Data};
ghost use Rattle.serde_json.specs.View.{view};
ghost use Rattle.report_json.specs.ReportJson.{list_of, hex_text};
ghost use Rattle.report_json.specs.Tokens.{tokens_of};

use crate::text::Text;
use serde_json::Value;
use std::alloc::{AllocError, Global};

/// What is shown as JSON.
pub trait Shown {
    /// What it is shown as.
    ghost shown: { Self → Data };

    /// It as a value.
    fn json(&self, alloc: Global) -> Result<Value, AllocError>
        ensures { IfOk result (λ value. view value ≡ shown self.now) };

    /// Adds it to a text.
    fn write(&self, out: &mut Text) -> Result<(), AllocError>
        ensures { OnOk result (out.new ≡ out.old ++ tokens_of (shown self.now)) };
}

/// Each of these, in an array.
pub fn array_of<T: Shown>(alloc: Global, items: &[T]) -> Result<Value, AllocError>
    ensures { IfOk result (λ value. view value ≡ list_of T.shown items.now) }
{
    let mut values = Vec::with_capacity(alloc, items.len())?;
    for item in items {
        values.push(item.json(alloc)?)?;
    }
    Ok(Value::Array(values))
}

/// Adds each of these, in an array.
pub fn write_array<T: Shown>(out: &mut Text, items: &[T]) -> Result<(), AllocError>
    ensures { OnOk result (out.new ≡ out.old ++ tokens_of (list_of T.shown items.now)) }
{
    out.open_array()?;
    for item in items {
        item.write(out)?;
    }
    out.close_array()
}

/// Adds a member that is an array of these.
pub fn write_member<T: Shown>(out: &mut Text, name: &str, items: &[T]) -> Result<(), AllocError>
    ensures { OnOk result
        (out.new ≡ out.old ++ key name.now ∷ tokens_of (list_of T.shown items.now)) }
{
    out.add_key(name)?;
    write_array(out, items)
}

/// Bytes as lower-case hexadecimal text.
pub fn hex_of(alloc: Global, bytes: &[u8]) -> Result<Value, AllocError>
    ensures { IfOk result (λ value. view value ≡ hex_text bytes.now) }
{
    Ok(Value::String(hex::encode(alloc, bytes)?))
}
