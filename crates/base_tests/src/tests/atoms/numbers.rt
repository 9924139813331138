//! The numbers that the crate names, and which ids atoms have.
use super::super::asserts::assert_holds;
use atom_record::{
    BAD_FLAGS, BAD_ID, BAD_PLACE, BAD_TYPE, CUT, EXCLUSIVE, MAX_BYTES, NOT_ABOVE, OTHER_ID,
    PRIMARY, RESET, TOO_LONG, has_flag, is_atom_id, is_pulled,
};
use std::test::*;

#[test]
fn names_its_numbers(rt: HostRuntime) {
    let reasons = [
        TOO_LONG, BAD_ID, CUT, BAD_PLACE, NOT_ABOVE, BAD_TYPE, BAD_FLAGS, OTHER_ID,
    ];
    assert!(rt; reasons == [1, 2, 3, 4, 5, 6, 7, 8]);
    assert!(rt; [EXCLUSIVE, PRIMARY, RESET] == [1, 2, 4]);
    assert!(rt; MAX_BYTES == 4096);
}

/// Ids, which of them are pulled, and which an atom may have.
const IDS: &[(u32, bool, bool)] = &[
    (0, false, false),
    (1, false, true),
    (9_999, false, true),
    (10_000, true, true),
    (99_999, true, true),
    (100_000, false, true),
    (149_999, false, true),
    (150_000, true, true),
    (199_999, true, true),
    (200_000, false, true),
    (0x7fff_ffff, false, true),
    (0x8000_0000, false, false),
    (0xffff_ffff, false, false),
];

/// Flags of an entry, one of them, and whether it is there.
const FLAGS: &[(u8, u8, bool)] = &[
    (0, EXCLUSIVE, false),
    (1, EXCLUSIVE, true),
    (6, EXCLUSIVE, false),
    (5, PRIMARY, false),
    (2, PRIMARY, true),
    (3, RESET, false),
    (7, RESET, true),
];

#[test]
fn knows_which_ids_are_pulled_and_its_flags(rt: HostRuntime) {
    for &(id, pulled, lawful) in IDS {
        assert_holds(
            &rt,
            is_pulled(id) == pulled && is_atom_id(id) == lawful,
            &id,
        );
    }
    for &(flags, flag, there) in FLAGS {
        assert_holds(&rt, has_flag(flags, flag) == there, &(flags, flag));
    }
}
