//! Parts of the entries of an atom. They stand in rising order of field, index and sub.
ghost use Rattle.std.specs.Prelude.{◌≡◌, ◌+◌, filter, AllPairs};
ghost use Rattle.std.specs.List.Sorted.{IsNonDecreasingBy};
ghost use Rattle.atom_record.specs.declared.atom.AtomField.{AtomField};
ghost use Rattle.atom_record.specs.AtomSound.{IsBelow};
ghost use Rattle.matcher_eval.specs.AtomTests.{is_of_field, is_at_index, is_repeated};
ghost use Rattle.matcher_eval.specs.Parts.{is_below_field, is_below_index, SplitsAt, AreParts};

use atom_record::AtomField;

// How many entries have a field below this one.
fn count_below_field(entries: &[AtomField], bound: u64) -> usize
    requires { IsNonDecreasingBy (λ (entry : AtomField). entry.field) entries.now }
    ensures { SplitsAt (is_below_field bound) entries.now result }
{
    entries.partition_point(|entry| u64::from(entry.field) < bound)
}

// How many entries have an index below this one.
fn count_below_index(entries: &[AtomField], bound: u64) -> usize
    requires { IsNonDecreasingBy (λ (entry : AtomField). entry.index) entries.now }
    ensures { SplitsAt (is_below_index bound) entries.now result }
{
    entries.partition_point(|entry| u64::from(entry.index) < bound)
}

// The entries of one field.
pub(crate) fn of_field(entries: &[AtomField], field: u32) -> &[AtomField]
    requires { AllPairs IsBelow entries.now }
    ensures entries { result.now ≡ filter (is_of_field field) entries.now }
    ensures rising { IsNonDecreasingBy (λ (entry : AtomField). entry.index) result.now }
{
    let field = u64::from(field);
    let start = count_below_field(entries, field);
    let rest = &entries[start..];
    let count = count_below_field(rest, field + 1);
    &rest[..count]
}

// The entries up to an index, among those of a field, and the entries after them.
pub(crate) fn split_after(entries: &[AtomField], index: u8) -> (&[AtomField], &[AtomField])
    requires { IsNonDecreasingBy (λ (entry : AtomField). entry.index) entries.now }
    ensures { AreParts (is_below_index (index + 1)) entries.now result.0.now result.1.now }
{
    let count = count_below_index(entries, u64::from(index) + 1);
    (&entries[..count], &entries[count..])
}

// The entries of one index, among those of a field.
pub(crate) fn at_index(entries: &[AtomField], index: u8) -> &[AtomField]
    requires { IsNonDecreasingBy (λ (entry : AtomField). entry.index) entries.now }
    ensures { result.now ≡ filter (is_at_index index) entries.now }
{
    let start = count_below_index(entries, u64::from(index));
    let (here, _) = split_after(&entries[start..], index);
    here
}

// The entries of a repeated field, among those of a field.
pub(crate) fn repeated(entries: &[AtomField]) -> &[AtomField]
    requires { IsNonDecreasingBy (λ (entry : AtomField). entry.index) entries.now }
    ensures { result.now ≡ filter is_repeated entries.now }
{
    let (_, repeated) = split_after(entries, 0);
    repeated
}
