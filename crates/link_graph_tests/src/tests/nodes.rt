//! Nodes that name places, and what is answered of them.
use link_graph::{Node, are_in_range, first_on_cycle, order_of, reached_from};
use sd_base::Seq;
use std::alloc::{AllocError, Global};

/// A node that names these places.
#[derive(Drop)]
pub struct Names {
    pub places: Seq<u32>,
}

impl Node for Names {
    ghost names = { λ node. node.places };

    fn children(&self) -> &[u32] {
        self.places.as_slice()
    }
}

/// A node for each row.
pub fn nodes(alloc: Global, rows: &[&[u32]]) -> Result<Vec<Names>, AllocError> {
    let mut nodes = Vec::new(alloc);
    for row in rows {
        let places = Seq::from_slice(alloc, row)?;
        nodes.push(Names { places })?;
    }
    Ok(nodes)
}

/// Whether this place is the first that reaches itself, or none is.
pub fn is_first(alloc: Global, nodes: &[Names], first: Option<u32>) -> Result<bool, AllocError> {
    if nodes.len() >= 1_000_000 || !are_in_range(nodes) {
        return Ok(false);
    }
    Ok(first_on_cycle(alloc, nodes)? == first)
}

/// Whether this is the order that is found, or none is.
pub fn has_order(
    alloc: Global,
    nodes: &[Names],
    order: Option<&[u32]>,
) -> Result<bool, AllocError> {
    if nodes.len() >= 1_000_000 || !are_in_range(nodes) {
        return Ok(false);
    }
    match (order_of(alloc, nodes)?, order) {
        (Some(found), Some(order)) => Ok(found.as_slice() == order),
        (None, None) => Ok(true),
        _ => Ok(false),
    }
}

/// Whether these places are reached from one.
pub fn reaches(
    alloc: Global,
    nodes: &[Names],
    from: u32,
    marks: &[bool],
) -> Result<bool, AllocError> {
    if nodes.len() >= 1_000_000 || !are_in_range(nodes) || from as usize >= nodes.len() {
        return Ok(false);
    }
    Ok(reached_from(alloc, nodes, from)?.as_slice() == marks)
}
