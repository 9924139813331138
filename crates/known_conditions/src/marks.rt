//! Marks at the places to which something came already.
ghost use Rattle.std.specs.Prelude.{◌≡◌, get_or, replicate, true, false, IfOk};

use std::alloc::{AllocError, Global};

/// Whether a place is marked. Past the end there is none to which anything could come.
pub fn is_marked(marks: &[bool], place: usize) -> bool
    ensures { result ≡ get_or marks.now place true }
{
    match marks.get(place) {
        Some(mark) => *mark,
        None => true,
    }
}

/// So many places, none of which is marked.
pub fn no_marks(alloc: Global, count: usize) -> Result<Vec<bool>, AllocError>
    ensures { IfOk result (λ marks. marks.items ≡ replicate count false) }
{
    let mut marks = Vec::new(alloc);
    marks.resize(count, false)?;
    Ok(marks)
}
