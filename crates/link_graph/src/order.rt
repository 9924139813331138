//! An order of places.
ghost use Rattle.std.specs.Prelude.{◌≡◌, ◌≢◌, ℕ, ◌<◌, ◌≤◌, ◌^◌, length, map, IfOk, IfSome, IfNone, OnOk, true, false, [], vec_len};
ghost use Rattle.link_graph.specs.Links.{AreInRange, IsOrder, HasCycle};
ghost use Rattle.link_graph.specs.Descent.{mark_at, HoldsWalk, StayMarked};
ghost use Rattle.link_graph.specs.declared.walk.Mark.TheVariants.{New};

use crate::Node;
use crate::walk::{Mark, Walk};
use sd_base::Seq;
use std::alloc::{AllocError, Global};

/// An order in which each place stands after all that it names, or none where some place reaches itself.
pub fn order_of<N: Node>(alloc: Global, nodes: &[N]) -> Result<Option<Seq<u32>>, AllocError>
    requires few { length nodes.now < 2 ^ 32 }
    requires in_range { AreInRange (map N.names nodes.now) }
    ensures order { IfOk result (λ found. IfSome found (IsOrder (map N.names nodes.now))) }
    ensures none { IfOk result (λ found. IfNone found (HasCycle (map N.names nodes.now))) }
{
    let mut walk = begin(alloc, nodes)?;
    for root in 0..nodes.len() {
        if !go_down(&mut walk, nodes, root)? {
            return Ok(None);
        }
    }
    Ok(Some(Seq::from_vec(walk.order)))
}

// A walk that was nowhere.
fn begin<N: Node>(alloc: Global, nodes: &[N]) -> Result<Walk, AllocError>
    ensures walk { IfOk result (HoldsWalk (map N.names nodes.now)) }
    ensures back { IfOk result (λ walk. walk.way.items ≡ []) }
{
    Ok(Walk {
        marks: vec![in alloc; Mark::New; nodes.len()]?,
        next: vec![in alloc; 0; nodes.len()]?,
        way: Vec::new(alloc),
        order: Vec::new(alloc),
    })
}

// Goes down from a place, unless it is done, and back. `false` where the way leads back to a place on it.
fn go_down<N: Node>(walk: &mut Walk, nodes: &[N], root: usize) -> Result<bool, AllocError>
    requires few { length nodes.now < 2 ^ 32 }
    requires in_range { AreInRange (map N.names nodes.now) }
    requires walk { HoldsWalk (map N.names nodes.now) walk.old }
    requires back { walk.old.way.items ≡ [] }
    requires here { root < length nodes.now }
    ensures walk { IfOk result (λ on. on ≡ true → HoldsWalk (map N.names nodes.now) walk.new) }
    ensures back { IfOk result (λ on. on ≡ true → walk.new.way.items ≡ []) }
    ensures root { IfOk result (λ on. on ≡ true → mark_at walk.new.marks.items root ≢ New) }
    ensures marked { OnOk result (StayMarked walk.old walk.new) }
    ensures cycle { IfOk result (λ on. on ≡ false → HasCycle (map N.names nodes.now)) }
{
    if !walk.is_new(root) {
        return Ok(true);
    }
    walk.enter(root as u32)?;
    while !walk.way.is_empty() {
        if !walk.step(nodes)? {
            return Ok(false);
        }
    }
    Ok(true)
}
