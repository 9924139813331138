//! As many places and references as a configuration may have.
use super::nodes::{Names, is_first};
use sd_base::Seq;
use std::alloc::{AllocError, Global};
use std::test::*;

// So many places, each of which names so many after it, and the last one the first, where it is to be so.
fn forward(alloc: Global, count: u32, most: u32, back: bool) -> Result<Vec<Names>, AllocError> {
    let mut nodes = Vec::new(alloc);
    for at in 0..count {
        nodes.push(names_of(alloc, at, count, most, back)?)?;
    }
    Ok(nodes)
}

fn names_of(
    alloc: Global,
    at: u32,
    count: u32,
    most: u32,
    back: bool,
) -> Result<Names, AllocError> {
    let mut places = Seq::new(alloc);
    for step in 0..most {
        let next = at.saturating_add(1).saturating_add(step);
        if next < count {
            places.push(next)?;
        }
    }
    if back && at.saturating_add(1) == count {
        places.push(0)?;
    }
    Ok(Names { places })
}

fn first_is(
    alloc: Global,
    count: u32,
    most: u32,
    back: bool,
    first: Option<u32>,
) -> Result<bool, AllocError> {
    let nodes = forward(alloc, count, most, back)?;
    is_first(alloc, nodes.as_slice(), first)
}

#[test]
fn long_chains_end(rt: HostRuntime) -> Result<(), Fail> {
    assert!(rt; first_is(rt.alloc(), 800, 1, false, None)?);
    assert!(rt; first_is(rt.alloc(), 800, 1, true, Some(0))?);
    Ok(())
}

#[test]
fn many_references_are_followed(rt: HostRuntime) -> Result<(), Fail> {
    // 800 places with some 130,000 references, without a cycle and with one.
    assert!(rt; first_is(rt.alloc(), 800, 180, false, None)?);
    assert!(rt; first_is(rt.alloc(), 800, 180, true, Some(0))?);
    Ok(())
}

// So many places that each name the next twice.
fn twice(alloc: Global, count: u32) -> Result<Vec<Names>, AllocError> {
    let mut nodes = Vec::new(alloc);
    for at in 0..count {
        let next = at.saturating_add(1);
        let places = if next < count {
            Seq::from_slice(alloc, &[next, next])?
        } else {
            Seq::new(alloc)
        };
        nodes.push(Names { places })?;
    }
    Ok(nodes)
}

#[test]
fn each_reference_is_followed_once(rt: HostRuntime) -> Result<(), Fail> {
    let nodes = twice(rt.alloc(), 300)?;
    assert!(rt; is_first(rt.alloc(), nodes.as_slice(), None)?);
    Ok(())
}
