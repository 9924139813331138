//! Tests of the fields of an atom.
ghost use Rattle.std.specs.Prelude.{◌≡◌, map, IfOk, Some};
ghost use Rattle.config_decode.specs.Tree as tree;
ghost use Rattle.config_decode.specs.Values as values;

use crate::field_matcher::MAX_LEVELS;
use crate::message::Message;
use crate::numbers;
use crate::tree::FromMessage;
use config_types::{Bytes, FieldTest, Test};
use sd_base::Seq;
use std::alloc::{AllocError, Global};

// The members of a test's oneof.
const MEMBERS: [u32; 10] = [
    numbers::TEST_EQ_BOOL,
    numbers::TEST_EQ_STRING,
    numbers::TEST_EQ_INT,
    numbers::TEST_LT_INT,
    numbers::TEST_GT_INT,
    numbers::TEST_LTE_INT,
    numbers::TEST_GTE_INT,
    numbers::TEST_MATCHES_TUPLE,
    numbers::TEST_EQ_ANY_STRING,
    numbers::TEST_NEQ_ANY_STRING,
];

impl FromMessage for FieldTest {
    ghost use Rattle.config_decode.specs.Tree.{field_test_of};

    ghost tree = { field_test_of };

    fn from_message(alloc: Global, message: &Message<'_>) -> Result<FieldTest, AllocError> {
        field_test(alloc, MAX_LEVELS, message)
    }
}

// A test in which so many tuples may stand inside one another.
#[cycle(levels)]
#[tactic(auto, using(crate::proofs::TreeLemmas::field_test_step))]
fn field_test(alloc: Global, levels: u32, message: &Message<'_>) -> Result<FieldTest, AllocError>
    ensures { IfOk result (λ read. read ≡ tree.field_test_in levels message.now) }
{
    let field = message.read_scalar(numbers::TEST_FIELD);
    let position = message.read_scalar(numbers::TEST_POSITION);
    let run = message.read_oneof_run(alloc, &MEMBERS)?;
    let test = test(alloc, levels, &run)?;
    Ok(FieldTest {
        field,
        position,
        test,
    })
}

// What is asked, by the records of the member that was set last.
#[cycle(levels)]
fn test(alloc: Global, levels: u32, run: &Message<'_>) -> Result<Option<Test>, AllocError>
    ensures { IfOk result (λ read. read ≡ tree.test_of (tree.tests_in levels) run.now) }
{
    match run.number() {
        None => Ok(None),
        Some(numbers::TEST_MATCHES_TUPLE) => Ok(Some(Test::Tuple(tuple(alloc, levels, run)?))),
        Some(number) => plain_test(alloc, number, run),
    }
}

// What is asked of a value that isn't a tuple.
fn plain_test(alloc: Global, number: u32, run: &Message<'_>) -> Result<Option<Test>, AllocError>
    ensures { IfOk result (λ read. read ≡ tree.plain_test_of number run.now) }
{
    match number {
        numbers::TEST_EQ_ANY_STRING => Ok(Some(Test::AnyOf(strings(alloc, run, number)?))),
        numbers::TEST_NEQ_ANY_STRING => Ok(Some(Test::NoneOf(strings(alloc, run, number)?))),
        numbers::TEST_EQ_STRING => Ok(run.read_string(alloc, number)?.map(Test::EqStr)),
        _ => Ok(number_test(number, run)),
    }
}

// What is asked of a number or a truth value.
fn number_test(number: u32, run: &Message<'_>) -> Option<Test>
    ensures { result ≡ tree.number_test_of number run.now }
{
    match number {
        numbers::TEST_EQ_BOOL => run.read_scalar(number).map(Test::EqBool),
        numbers::TEST_EQ_INT => run.read_scalar(number).map(Test::EqInt),
        numbers::TEST_LT_INT => run.read_scalar(number).map(Test::LtInt),
        numbers::TEST_GT_INT => run.read_scalar(number).map(Test::GtInt),
        numbers::TEST_LTE_INT => run.read_scalar(number).map(Test::LteInt),
        numbers::TEST_GTE_INT => run.read_scalar(number).map(Test::GteInt),
        _ => None,
    }
}

// The tests of a tuple.
#[cycle(levels)]
#[tactic(auto, using(crate::proofs::TreeLemmas::tests_step))]
fn tuple(alloc: Global, levels: u32, run: &Message<'_>) -> Result<Seq<FieldTest>, AllocError>
    ensures { IfOk result (λ read. read ≡ tree.tests_in levels (tree.tuple_messages run.now)) }
{
    if levels == 0 {
        return Ok(Seq::new(alloc));
    }
    let messages = tuple_messages(alloc, run)?;
    field_tests(alloc, levels - 1, messages.as_slice())
}

// The messages of a tuple's tests.
fn tuple_messages<'a>(alloc: Global, run: &Message<'a>) -> Result<Vec<Message<'a>>, AllocError>
    ensures { IfOk result (λ messages. messages.items ≡ tree.tuple_messages run.now) }
{
    let inside = run.read_merged(alloc, numbers::TEST_MATCHES_TUPLE)?;
    inside.read_messages(alloc, numbers::TUPLE_TEST)
}

// The tests of these messages.
#[cycle(levels)]
fn field_tests(
    alloc: Global,
    levels: u32,
    messages: &[Message<'_>],
) -> Result<Seq<FieldTest>, AllocError>
    ensures { IfOk result (λ read. read ≡ map (tree.field_test_in levels) messages.now) }
{
    let mut tests = Seq::new(alloc);
    for inner in messages {
        tests.push(field_test(alloc, levels, inner)?)?;
    }
    Ok(tests)
}

// The strings of a list.
fn strings(alloc: Global, run: &Message<'_>, number: u32) -> Result<Seq<Bytes>, AllocError>
    ensures { IfOk result (λ read. read ≡ tree.strings_of (values.payloads number run.now)) }
{
    let list = run.read_merged(alloc, number)?;
    list.read_strings(alloc, numbers::STRINGS_STR_VALUE)
}
