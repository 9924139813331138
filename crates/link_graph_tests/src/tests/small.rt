//! A few places.
use super::nodes::{has_order, is_first, nodes, reaches};
use std::alloc::{AllocError, Global};
use std::test::*;

fn first_is(alloc: Global, rows: &[&[u32]], first: Option<u32>) -> Result<bool, AllocError> {
    let nodes = nodes(alloc, rows)?;
    is_first(alloc, nodes.as_slice(), first)
}

#[test]
fn the_member_of_a_cycle_is_named(rt: HostRuntime) -> Result<(), Fail> {
    // The first only refers to the cycle of the second and the third.
    assert!(rt; first_is(rt.alloc(), &[&[1], &[2], &[1], &[]], Some(1))?);
    assert!(rt; first_is(rt.alloc(), &[&[], &[1]], Some(1))?);
    assert!(rt; first_is(rt.alloc(), &[&[3], &[2], &[1], &[0]], Some(0))?);
    assert!(rt; first_is(rt.alloc(), &[&[2], &[], &[3, 1], &[2]], Some(2))?);
    assert!(rt; first_is(rt.alloc(), &[&[1, 1], &[2, 2], &[]], None)?);
    assert!(rt; first_is(rt.alloc(), &[], None)?);
    Ok(())
}

fn order_is(alloc: Global, rows: &[&[u32]], order: Option<&[u32]>) -> Result<bool, AllocError> {
    let nodes = nodes(alloc, rows)?;
    has_order(alloc, nodes.as_slice(), order)
}

#[test]
fn what_is_named_stands_before(rt: HostRuntime) -> Result<(), Fail> {
    assert!(rt; order_is(rt.alloc(), &[&[1, 1], &[]], Some(&[1, 0]))?);
    assert!(rt; order_is(rt.alloc(), &[&[2], &[2, 0], &[]], Some(&[2, 0, 1]))?);
    assert!(rt; order_is(rt.alloc(), &[&[], &[]], Some(&[0, 1]))?);
    assert!(rt; order_is(rt.alloc(), &[&[1], &[0]], None)?);
    Ok(())
}

fn marks_are(
    alloc: Global,
    rows: &[&[u32]],
    from: u32,
    marks: &[bool],
) -> Result<bool, AllocError> {
    let nodes = nodes(alloc, rows)?;
    reaches(alloc, nodes.as_slice(), from, marks)
}

#[test]
fn a_place_is_reached_by_references_alone(rt: HostRuntime) -> Result<(), Fail> {
    // Not the place itself, unless a reference leads back.
    assert!(rt; marks_are(rt.alloc(), &[&[1], &[2], &[]], 0, &[false, true, true])?);
    assert!(rt; marks_are(rt.alloc(), &[&[1], &[0], &[]], 0, &[true, true, false])?);
    assert!(rt; marks_are(rt.alloc(), &[&[1], &[], &[0]], 1, &[false, false, false])?);
    Ok(())
}
