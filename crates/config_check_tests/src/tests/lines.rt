//! Configurations by their bytes, and the line that tells what was found.
use super::run::assert_line;
use std::test::Fail;

/// A name, a configuration, and the line without its newline.
type Row = (&'static str, &'static [u8], &'static str);

/// Configurations without a fault: matchers, predicates, states, metrics.
const ACCEPTED: [Row; 5] = [
    ("no record", b"", "ok 0 0 0 0"),
    (
        "one count",
        b"\x3a\x06\x08\x01\x12\x02\x08\x05\x1a\x04\x08\x64\x10\x01",
        "ok 1 0 0 1",
    ),
    (
        "a count with an overflow row",
        b"\x3a\x06\x08\x01\x12\x02\x08\x05\x1a\x15\x08\x64\x10\x01\x22\x06\x08\x05\x1a\x02\x08\x01\x28\xe8\x07\xc8\x3e\
          \x02\xd0\x3e\x01",
        "ok 1 0 0 1",
    ),
    (
        "some of each kind",
        b"\x3a\x06\x08\x01\x12\x02\x08\x05\x3a\x06\x08\x02\x12\x02\x08\x05\x3a\x06\x08\x03\x12\x02\x08\x05\x42\x06\x08\
          \x0b\x12\x02\x08\x01\x42\x06\x08\x0c\x12\x02\x08\x01\xaa\x01\x04\x08\x03\x10\x07\x12\x04\x08\x64\x10\x01\x1a\
          \x04\x08\x65\x10\x01\x22\x0c\x08\x66\x10\x01\x1a\x06\x08\x05\x1a\x02\x08\x01\x2a\x08\x08\x67\x10\x01\x1a\x02\
          \x08\x01\x32\x04\x08\x68\x10\x0b",
        "ok 3 2 1 5",
    ),
    (
        "a gauge, which no install takes yet",
        b"\x3a\x06\x08\x01\x12\x02\x08\x05\x2a\x08\x08\x64\x10\x01\x1a\x02\x08\x01",
        "ok 1 0 0 1",
    ),
];

#[test]
fn counts_the_entities(rt: HostRuntime) -> Result<(), Fail> {
    for (name, config, line) in ACCEPTED {
        assert_line(&rt, name, config, line)?;
    }
    Ok(())
}

/// A cause of the wire format, and the offset of its record.
const MALFORMED: [Row; 7] = [
    ("a record that is cut", b"\x3a", "refused wire 2 0"),
    (
        "a field of number 0",
        b"\x3a\x06\x08\x01\x12\x02\x08\x05\x1a\x04\x08\x64\x10\x01\x02\0",
        "refused wire 4 14",
    ),
    ("a wire type of 7", b"\x08\0\x0f", "refused wire 3 2"),
    (
        "a long varint before a cut",
        b"\x08\xff\xff\xff\xff\xff\xff\xff\xff\xff\xff",
        "refused wire 1 0",
    ),
    ("a group's end without a start", b"\x0c", "refused wire 5 0"),
    (
        "a tag of more than 32 bits",
        b"\x80\x80\x80\x80\x80\x01\0",
        "refused wire 7 0",
    ),
    (
        "a group of depth 101",
        b"\x0b\x0b\x0b\x0b\x0b\x0b\x0b\x0b\x0b\x0b\x0b\x0b\x0b\x0b\x0b\x0b\x0b\x0b\x0b\x0b\x0b\x0b\x0b\x0b\x0b\x0b\x0b\
          \x0b\x0b\x0b\x0b\x0b\x0b\x0b\x0b\x0b\x0b\x0b\x0b\x0b\x0b\x0b\x0b\x0b\x0b\x0b\x0b\x0b\x0b\x0b\x0b\x0b\x0b\x0b\
          \x0b\x0b\x0b\x0b\x0b\x0b\x0b\x0b\x0b\x0b\x0b\x0b\x0b\x0b\x0b\x0b\x0b\x0b\x0b\x0b\x0b\x0b\x0b\x0b\x0b\x0b\x0b\
          \x0b\x0b\x0b\x0b\x0b\x0b\x0b\x0b\x0b\x0b\x0b\x0b\x0b\x0b\x0b\x0b\x0b\x0b\x0b\x0b",
        "refused wire 6 100",
    ),
];

#[test]
fn names_the_cause_and_the_offset(rt: HostRuntime) -> Result<(), Fail> {
    for (name, config, line) in MALFORMED {
        assert_line(&rt, name, config, line)?;
    }
    Ok(())
}

/// The numbers that lead to a record that is not supported.
const UNSUPPORTED: [Row; 5] = [
    ("an activation", b"\x8a\x01\0", "refused unsupported 17"),
    (
        "a field of a matcher that isn't listed",
        b"\x3a\x02\x48\x01",
        "refused unsupported 7.9",
    ),
    (
        "a float of a test",
        b"\x3a\x0f\x08\x01\x12\x0b\x08\x05\x12\x07\x08\x01\x45\0\0\0\0",
        "refused unsupported 7.2.2.8",
    ),
    (
        "a field of five digits",
        b"\x3a\x04\xc8\x83\x06\x01",
        "refused unsupported 7.12345",
    ),
    (
        "an overflow row of a value",
        b"\x3a\x06\x08\x01\x12\x02\x08\x05\x22\x07\x08\x64\x10\x01\xd0\x3e\x01",
        "refused unsupported 4.1002",
    ),
];

#[test]
fn names_the_path(rt: HostRuntime) -> Result<(), Fail> {
    for (name, config, line) in UNSUPPORTED {
        assert_line(&rt, name, config, line)?;
    }
    Ok(())
}

/// A fault of references: its number, its reason and its value.
const UNLINKED: [Row; 10] = [
    (
        "a child that leads back",
        b"\x3a\x08\x08\x01\x1a\x04\x08\x01\x10\x02\x3a\x08\x08\x02\x1a\x04\x08\x01\x10\x03\x3a\x08\x08\x03\x1a\x04\x08\
          \x01\x10\x02",
        "refused link 7 0 2",
    ),
    (
        "a bound of 0",
        b"\x3a\x06\x08\x01\x12\x02\x08\x05\x1a\x07\x08\x64\x10\x01\xc8\x3e\0",
        "refused link 1 6 0",
    ),
    (
        "a matcher without an id",
        b"\x3a\x04\x12\x02\x08\x05",
        "refused link 2 1 0",
    ),
    (
        "an id twice",
        b"\x3a\x06\x08\x01\x12\x02\x08\x05\x3a\x06\x08\x01\x12\x02\x08\x05",
        "refused link 3 1 1",
    ),
    (
        "a count of no matcher, whose id is below 0",
        b"\x1a\x0d\x08\x64\x10\xff\xff\xff\xff\xff\xff\xff\xff\xff\x01",
        "refused link 4 4 -1",
    ),
    (
        "a time of no predicate, of the least id",
        b"\x32\x0d\x08\x64\x10\x80\x80\x80\x80\x80\x80\x80\x80\x80\x01",
        "refused link 5 4 -9223372036854775808",
    ),
    (
        "a slice by no state",
        b"\x3a\x06\x08\x01\x12\x02\x08\x05\x1a\x06\x08\x64\x10\x01\x40\x03",
        "refused link 6 4 3",
    ),
    (
        "a predicate of itself",
        b"\x42\x08\x08\x0b\x1a\x04\x08\x03\x10\x0b",
        "refused link 8 0 11",
    ),
    (
        "a matcher of neither kind, of the greatest id",
        b"\x3a\x0a\x08\xff\xff\xff\xff\xff\xff\xff\xff\x7f",
        "refused link 9 1 9223372036854775807",
    ),
    (
        "a hidden metric that is none",
        b"\x68\x05",
        "refused link 9 19 5",
    ),
];

#[test]
fn names_the_fault_of_references(rt: HostRuntime) -> Result<(), Fail> {
    for (name, config, line) in UNLINKED {
        assert_line(&rt, name, config, line)?;
    }
    Ok(())
}

/// Two faults, of which one is told.
const TWO_FAULTS: [Row; 2] = [
    (
        "a fault of the wire after what isn't supported",
        b"\x8a\x01\0\x3a",
        "refused wire 2 3",
    ),
    (
        "what isn't supported after a fault of references",
        b"\x68\x05\x8a\x01\0",
        "refused unsupported 17",
    ),
];

#[test]
fn names_one_fault_of_two(rt: HostRuntime) -> Result<(), Fail> {
    for (name, config, line) in TWO_FAULTS {
        assert_line(&rt, name, config, line)?;
    }
    Ok(())
}
