//! Whether the tests of a matcher hold on the fields of an atom.
ghost use Rattle.std.specs.Prelude.{◌≡◌, AllPairs, filter, map, Some};
ghost use Rattle.std.specs.List.{list_all, list_any};
ghost use Rattle.std.specs.Option.{option_copied, option_to_list};
ghost use Rattle.std.specs.List.Sorted.{IsNonDecreasingBy};
ghost use Rattle.atom_record.specs.declared.atom.AtomField.{AtomField};
ghost use Rattle.atom_record.specs.AtomSound.{HasNoFault, IsBelow};
ghost use Rattle.config_types.specs.declared.matcher.Test.TheViews.{out-Test};
ghost use Rattle.matcher_eval.specs.ValueTests.{is_same_truth};
ghost use Rattle.matcher_eval.specs.AtomTests.{number_set, passes_at_sub, inner_test_holds, condition_holds, condition_holds_at, tested_indexes, least_of, greatest_of, holds_on_field, field_test_holds, matcher_holds};

use crate::conditions::passes;
use crate::entries::{at_index, of_field, repeated, split_after};
use atom_record::{Atom, AtomField};
use config_types::{FieldTest, Position, SimpleMatcher, Test};

/// Whether the matcher holds on the atom.
pub(crate) fn matches(matcher: &SimpleMatcher, atom: &Atom) -> bool
    requires { HasNoFault atom.now }
    ensures { result ≡ matcher_holds matcher.now atom.now }
{
    atom.id == number_or_zero(matcher.atom_id)
        && tests_hold(matcher.tests.as_slice(), atom.fields.as_slice())
}

// Whether each test holds on the entries of an atom.
fn tests_hold(tests: &[FieldTest], entries: &[AtomField]) -> bool
    requires { AllPairs IsBelow entries.now }
    ensures { result ≡ list_all (field_test_holds entries.now) tests.now }
{
    for test in tests {
        if !test_holds(test, entries) {
            return false;
        }
    }
    true
}

// The number that is set, and 0 where none is.
fn number_or_zero(number: Option<i32>) -> u32
    ensures { result ≡ number_set number }
{
    match number {
        Some(number) if number >= 0 => number.cast_unsigned(),
        _ => 0,
    }
}

// Whether the test holds on the entries of an atom.
fn test_holds(test: &FieldTest, entries: &[AtomField]) -> bool
    requires { AllPairs IsBelow entries.now }
    ensures { result ≡ field_test_holds entries.now test.now }
{
    let Some(condition) = &test.test else {
        return false;
    };
    holds_where_picked(
        condition,
        test.position,
        of_field(entries, number_or_zero(test.field)),
    )
}

// Whether the condition holds on the entries of a field, at the indexes that the position picks.
fn holds_where_picked(condition: &Test, position: Option<Position>, entries: &[AtomField]) -> bool
    requires { IsNonDecreasingBy (λ (entry : AtomField). entry.index) entries.now }
    ensures { result ≡ holds_on_field entries.now position (out-Test condition.now) }
{
    match position {
        None => holds(condition, at_index(entries, 0)),
        Some(Position::First) => holds_at_first(condition, entries),
        Some(Position::Last) => holds_at_last(condition, entries),
        Some(Position::Any) => holds_at_some_index(condition, entries),
        Some(Position::All) => {
            !repeated(entries).is_empty() && is_so_at_each_index(condition, entries, true)
        }
    }
}

// Whether the condition holds at the index that comes first, which is the least, if there is one.
fn holds_at_first(condition: &Test, entries: &[AtomField]) -> bool
    requires { IsNonDecreasingBy (λ (entry : AtomField). entry.index) entries.now }
    ensures { result ≡ list_any
        (condition_holds_at entries.now condition.now)
        (least_of (tested_indexes entries.now)) }
{
    holds_at(condition, entries, repeated(entries).first())
}

// Whether the condition holds at the index that comes last, which is the greatest, if there is one.
fn holds_at_last(condition: &Test, entries: &[AtomField]) -> bool
    requires { IsNonDecreasingBy (λ (entry : AtomField). entry.index) entries.now }
    ensures { result ≡ list_any
        (condition_holds_at entries.now condition.now)
        (greatest_of (tested_indexes entries.now)) }
{
    holds_at(condition, entries, repeated(entries).last())
}

// Whether the condition holds at the index of an entry, if there is one.
fn holds_at(condition: &Test, entries: &[AtomField], found: Option<&AtomField>) -> bool
    requires { IsNonDecreasingBy (λ (entry : AtomField). entry.index) entries.now }
    ensures { result ≡ list_any
        (λ entry. condition_holds_at entries.now condition.now entry.index)
        (option_to_list (option_copied found.entry)) }
{
    match found {
        Some(entry) => holds(condition, at_index(entries, entry.index)),
        None => false,
    }
}

// Whether the condition holds at some index of the field.
fn holds_at_some_index(condition: &Test, entries: &[AtomField]) -> bool
    requires { IsNonDecreasingBy (λ (entry : AtomField). entry.index) entries.now }
    ensures { result ≡ list_any
        (condition_holds_at entries.now condition.now)
        (tested_indexes entries.now) }
{
    !is_so_at_each_index(condition, entries, false)
}

// Whether the condition has this truth at each index of the field.
fn is_so_at_each_index(condition: &Test, entries: &[AtomField], truth: bool) -> bool
    requires { IsNonDecreasingBy (λ (entry : AtomField). entry.index) entries.now }
    ensures { result ≡ list_all
        (λ index. is_same_truth (condition_holds_at entries.now condition.now index) truth)
        (tested_indexes entries.now) }
{
    let mut rest = repeated(entries);
    while let Some(first) = rest.first() {
        let (here, next) = split_after(rest, first.index);
        if holds(condition, here) != truth {
            return false;
        }
        rest = next;
    }
    true
}

// Whether the condition holds on the entries of one index.
fn holds(condition: &Test, entries: &[AtomField]) -> bool
    ensures { result ≡ condition_holds entries.now (out-Test condition.now) }
{
    match condition {
        Test::Tuple(tests) => inner_tests_hold(tests.as_slice(), entries),
        _ => some_entry_passes(condition, 0, entries),
    }
}

// Whether each test of a tuple holds on the entries of one index.
fn inner_tests_hold(tests: &[FieldTest], entries: &[AtomField]) -> bool
    ensures { result ≡ list_all (inner_test_holds entries.now) tests.now }
{
    tests.iter().all(|test| holds_inside(test, entries))
}

// Whether the test of a tuple holds on the entries of one index.
fn holds_inside(test: &FieldTest, entries: &[AtomField]) -> bool
    ensures { result ≡ inner_test_holds entries.now test.now }
{
    match &test.test {
        Some(condition) => some_entry_passes(condition, number_or_zero(test.field), entries),
        None => false,
    }
}

// Whether one of these entries has the sub, and a value that passes the condition.
fn some_entry_passes(condition: &Test, sub: u32, entries: &[AtomField]) -> bool
    ensures { result ≡ passes_at_sub entries.now sub (out-Test condition.now) }
{
    entries.iter().any(|entry| u32::from(entry.sub) == sub && passes(condition, &entry.value))
}
