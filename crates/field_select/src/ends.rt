//! The first and the last index at which an atom has entries of a field.
ghost use Rattle.std.specs.Prelude.{◌≡◌, ℕ, ◌<◌, slice_index};
ghost use Rattle.field_select.specs.LeafValues.{field_indexes};
ghost use Rattle.field_select.specs.FieldEnds.{nearer_index, end_index, ends_after};

use atom_record::AtomField;

/// Which end of a repeated field is meant.
#[derive(Clone, Copy, PartialEq, Eq)]
pub enum End {
    First,
    Last,
}

/// Which of two indexes is nearer to an end, where 0 is none.
pub fn nearer(end: End, index: u8, other: u8) -> u8
    ensures { result ≡ nearer_index end index other }
{
    match end {
        End::First if index == 0 => other,
        End::First if other == 0 => index,
        End::First => index.min(other),
        End::Last => index.max(other),
    }
}

/// For each field the index that is nearest to an end, or 0 where the field isn't repeated.
pub fn ends_of(end: End, entries: &[AtomField]) -> [u8; 256]
    ensures { (field : ℕ) → field < 256
        → slice_index result field ≡ end_index end (field_indexes field entries.now) }
{
    let mut ends = [0; 256];
    for entry in entries {
        note_index(end, &mut ends, entry.field, entry.index);
    }
    ends
}

// Notes an index of a field.
fn note_index(end: End, ends: &mut [u8; 256], field: u8, index: u8)
    ensures { ends.new ≡ ends_after end ends.old field index }
{
    if index > 0 {
        let field = field as usize;
        ends[field] = nearer(end, ends[field], index);
    }
}
