//! Slices by a state of the atom 27, with groups and without.
use atom_record::Slice;
use config_links::{LGroup, LState};
use sd_base::Seq;
use state_slicer::slice;
use std::alloc::{AllocError, Global};
use test_tools::{Row, Tester, signed};

/// Compares the slice of each value of a row, as `slice 4 {27:1}`.
pub fn run_slices(alloc: Global, tester: &mut Tester, row: &Row<'_>) -> Result<(), AllocError> {
    let state = state_of(alloc, row.word("groups"))?;
    for line in row.block().lines() {
        if let Some(text) = line.strip_prefix("slice ") {
            tester.case();
            let (digits, wanted) = text.split_once(' ').unwrap_or((text, ""));
            let found = sliced_text(alloc, &state, digits)?;
            tester.same_text(line, wanted, found.as_str())?;
        }
    }
    Ok(())
}

/// The slice of a value, as `{27=4}`, or `{27:1}` for a group.
fn sliced_text(alloc: Global, state: &LState, digits: &str) -> Result<String, AllocError> {
    let Ok(value) = digits.parse::<i32>() else {
        return String::from_str(alloc, "no value");
    };
    match slice(state, value) {
        Slice::Plain { atom_id, value } => format!(in alloc; "{{{atom_id}={value}}}"),
        Slice::Group { atom_id, group } => format!(in alloc; "{{{atom_id}:{group}}}"),
    }
}

/// A state with the groups of a text, as `1=2,4 3=`, without a map for `none`, and with an empty one for `empty`.
fn state_of(alloc: Global, text: &str) -> Result<LState, AllocError> {
    let map = match text {
        "none" => None,
        _ => Some(groups_of(alloc, text)?),
    };
    Ok(LState { atom_id: 27, map })
}

fn groups_of(alloc: Global, text: &str) -> Result<Seq<LGroup>, AllocError> {
    let mut groups = Seq::new(alloc);
    for word in text.split_whitespace() {
        if let Some((digits, values)) = word.split_once('=') {
            groups.push(LGroup {
                group: signed(digits).unwrap_or(0),
                values: values_of(alloc, values)?,
            })?;
        }
    }
    Ok(groups)
}

fn values_of(alloc: Global, text: &str) -> Result<Seq<i32>, AllocError> {
    let mut values = Seq::new(alloc);
    for digits in text.split(',') {
        if let Ok(value) = digits.parse::<i32>() {
            values.push(value)?;
        }
    }
    Ok(values)
}
