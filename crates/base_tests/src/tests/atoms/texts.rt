//! What payloads are read as: the atom, as it is printed.
use super::super::asserts::assert_holds;
use super::payloads::EACH_KIND;
use atom_record::{Atom, parse_atom};
use std::alloc::{AllocError, Global};

/// Whether an atom is printed so.
fn prints_as(alloc: Global, atom: &Atom, text: &str) -> Result<bool, AllocError> {
    let printed = format!(in alloc; "{atom:?}")?;
    Ok(printed.as_str() == text)
}

/// Whether a payload is read as the atom that is printed so.
fn reads_as(alloc: Global, payload: &[u8], text: &str) -> bool {
    match parse_atom(alloc, payload) {
        Ok(atom) => prints_as(alloc, &atom, text) == Ok(true),
        Err(_) => false,
    }
}

/// The atom of `EACH_KIND`.
const EACH_KIND_TEXT: &str = "Atom { id: 5, fields: Seq { items: [\
    AtomField { field: 1, index: 0, sub: 0, flags: 7, value: Int(-2) }, \
    AtomField { field: 2, index: 0, sub: 0, flags: 0, value: Long(-2) }, \
    AtomField { field: 2, index: 1, sub: 1, flags: 2, value: Bool(true) }, \
    AtomField { field: 2, index: 1, sub: 2, flags: 0, value: Str(Seq { items: [97, 98] }) }, \
    AtomField { field: 2, index: 2, sub: 0, flags: 0, value: Raw(Seq { items: [255] }) }, \
    AtomField { field: 3, index: 0, sub: 0, flags: 0, value: Bits32(67305985) }] } }";

/// Payloads, and the atoms that they are read as.
const ROWS: &[(&[u8], &str)] = &[
    (b"\x01\0\0\0", "Atom { id: 1, fields: Seq { items: [] } }"),
    (
        b"\xff\xff\xff\x7f",
        "Atom { id: 2147483647, fields: Seq { items: [] } }",
    ),
    (EACH_KIND, EACH_KIND_TEXT),
    // The least and the largest numbers, false, and a text without a byte.
    (
        b"\x05\0\0\0\x7f\x7f\x7f\0\x01\0\0\0\x80",
        "Atom { id: 5, fields: Seq { items: [\
        AtomField { field: 127, index: 127, sub: 127, flags: 0, value: Int(-2147483648) }] } }",
    ),
    (
        b"\x05\0\0\0\x01\0\0\x02\x02\xff\xff\xff\xff\xff\xff\xff\x7f",
        "Atom { id: 5, fields: Seq { items: [\
        AtomField { field: 1, index: 0, sub: 0, flags: 2, value: Long(9223372036854775807) }] } }",
    ),
    (
        b"\x05\0\0\0\x01\0\0\0\x03\0\x01\0\x01\0\x04\0\0",
        "Atom { id: 5, fields: Seq { items: [\
        AtomField { field: 1, index: 0, sub: 0, flags: 0, value: Bool(false) }, \
        AtomField { field: 1, index: 0, sub: 1, flags: 0, value: Str(Seq { items: [] }) }] } }",
    ),
    (
        b"\x05\0\0\0\x01\0\0\x05\x01\x01\0\0\0\x02\0\0\0\x06\xff\xff\xff\xff",
        "Atom { id: 5, fields: Seq { items: [\
        AtomField { field: 1, index: 0, sub: 0, flags: 5, value: Int(1) }, \
        AtomField { field: 2, index: 0, sub: 0, flags: 0, value: Bits32(4294967295) }] } }",
    ),
];

#[test]
fn reads_each_kind_of_value(rt: HostRuntime) {
    for &(payload, text) in ROWS {
        assert_holds(&rt, reads_as(rt.alloc(), payload, text), &payload);
    }
}
