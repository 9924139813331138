//! Which matchers a judge may be asked about.
ghost use Rattle.std.specs.Prelude.{◌≡◌};
ghost use Rattle.std.specs.List.{list_all};
ghost use Rattle.config_types.specs.Askable.{is_askable, is_askable_test, is_askable_inside, has_askable_condition, asks_a_value, is_set_up_to};

use crate::{FieldTest, SimpleMatcher, Test};

/// The greatest id of an atom.
const MAX_ATOM_ID: u32 = 2_147_483_647;

/// The greatest number of a field of an atom, or inside a message.
const MAX_FIELD: u32 = 127;

/// Whether a judge may be asked about the matcher: nothing of it is missing or out of range.
pub fn is_askable(matcher: &SimpleMatcher) -> bool
    ensures { result ≡ is_askable matcher.now }
{
    is_from_1_to(matcher.atom_id, MAX_ATOM_ID) && are_askable_tests(matcher.tests.as_slice())
}

/// Whether each test of a matcher may be asked.
pub fn are_askable_tests(tests: &[FieldTest]) -> bool
    ensures { result ≡ list_all is_askable_test tests.now }
{
    tests.iter().all(|test| may_ask_test(test))
}

// Whether a test of a field of an atom may be asked.
fn may_ask_test(test: &FieldTest) -> bool
    ensures { result ≡ is_askable_test test.now }
{
    is_from_1_to(test.field, MAX_FIELD) && may_ask(&test.test)
}

// Whether a condition is set, and each test of a tuple may be asked.
fn may_ask(condition: &Option<Test>) -> bool
    ensures { result ≡ has_askable_condition condition.now }
{
    match condition {
        None => false,
        Some(Test::Tuple(tests)) => are_askable_inside(tests.as_slice()),
        Some(_) => true,
    }
}

fn are_askable_inside(tests: &[FieldTest]) -> bool
    ensures { result ≡ list_all is_askable_inside tests.now }
{
    tests.iter().all(|test| may_ask_inside(test))
}

// Whether a test may stand inside a tuple.
fn may_ask_inside(test: &FieldTest) -> bool
    ensures { result ≡ is_askable_inside test.now }
{
    is_from_1_to(test.field, MAX_FIELD) && test.position.is_none() && is_for_a_value(&test.test)
}

// Whether a condition is set, and asks for no message.
fn is_for_a_value(condition: &Option<Test>) -> bool
    ensures { result ≡ asks_a_value condition.now }
{
    match condition {
        None | Some(Test::Tuple(_)) => false,
        Some(_) => true,
    }
}

// Whether a number is set, and is from 1 to this.
fn is_from_1_to(number: Option<i32>, greatest: u32) -> bool
    ensures { result ≡ is_set_up_to greatest number }
{
    match number {
        Some(number) => 1 <= number && number.unsigned_abs() <= greatest,
        None => false,
    }
}
