//! What a condition asks of one value.
ghost use Rattle.std.specs.Prelude.{◌≡◌, Option, Some, None};
ghost use Rattle.std.specs.Option.{option_copied};
ghost use Rattle.config_types.specs.declared.matcher.Test.TheViews.{out-Test};
ghost use Rattle.matcher_eval.specs.ValueTests.{is_truth_wanted, is_same_text, is_listed, value_passes};
ghost use Rattle.matcher_eval.specs.Contents.{number_held, text_held};

use atom_record::{Bytes, Value};
use config_types::Test;
use sd_base::Seq;

/// Whether the value passes the condition. What asks for a message asks for no value.
pub(crate) fn passes(condition: &Test, value: &Value) -> bool
    ensures { result ≡ value_passes (out-Test condition.now) value.now }
{
    match condition {
        Test::EqBool(wanted) => is_truth(value, *wanted),
        Test::EqStr(wanted) => text_of(value).is_some_and(|text| text == wanted),
        Test::EqInt(bound) => number_of(value).is_some_and(|number| number == *bound),
        Test::LtInt(bound) => number_of(value).is_some_and(|number| number < *bound),
        Test::GtInt(bound) => number_of(value).is_some_and(|number| number > *bound),
        Test::LteInt(bound) => number_of(value).is_some_and(|number| number <= *bound),
        Test::GteInt(bound) => number_of(value).is_some_and(|number| number >= *bound),
        Test::Tuple(_) => false,
        Test::AnyOf(texts) => text_of(value).is_some_and(|text| is_among(texts, text)),
        Test::NoneOf(texts) => text_of(value).is_some_and(|text| !is_among(texts, text)),
    }
}

// Whether the value is a truth, or a number that stands for one, and the one that is wanted.
fn is_truth(value: &Value, wanted: bool) -> bool
    ensures { result ≡ is_truth_wanted wanted value.now }
{
    match value {
        Value::Int(number) => (*number != 0) == wanted,
        Value::Long(number) => (*number != 0) == wanted,
        Value::Bool(truth) => *truth == wanted,
        Value::Str(_) | Value::Raw(_) | Value::Bits32(_) => false,
    }
}

// The number that the value is, if it is one.
fn number_of(value: &Value) -> Option<i64>
    ensures { result ≡ number_held value.now }
{
    match value {
        Value::Int(number) => Some(i64::from(*number)),
        Value::Long(number) => Some(*number),
        Value::Bool(_) | Value::Str(_) | Value::Raw(_) | Value::Bits32(_) => None,
    }
}

// The text that the value is, if it is one. A string of raw bytes is no text.
fn text_of(value: &Value) -> Option<&Bytes>
    ensures { option_copied result ≡ text_held value.now }
{
    match value {
        Value::Str(text) => Some(text),
        Value::Int(_) | Value::Long(_) | Value::Bool(_) | Value::Raw(_) | Value::Bits32(_) => None,
    }
}

// Whether some text of the list is this one.
fn is_among(texts: &Seq<Bytes>, text: &Bytes) -> bool
    ensures { result ≡ is_listed texts.now text.now }
{
    texts.as_slice().contains(text)
}
