//! A walk down all references, which comes to each place once.
ghost use Rattle.std.specs.Prelude.{◌≡◌, ◌≢◌, ℕ, ◌+◌, ◌<◌, ◌≤◌, ◌∷◌, ◌++◌, [], true, false, length, map, slice_index, slice_set, vec_len, take, ◌-◌, IsTrue, ◌↔◌, OnOk, IfOk};
ghost use Rattle.std.specs.List.{All};
ghost use Rattle.link_graph.specs.Links.{children_at, AreInRange, HasCycle};
ghost use Rattle.link_graph.specs.Descent.{mark_at, without_last, PutsMark, PassesDone, AreDone, StopsAt, HoldsWalk, left_of, StayMarked, OnlyCounts};

use crate::Node;
use std::alloc::{AllocError, Global};

/// How far the walk has come with a place.
#[derive(Clone, Copy, Debug)]
pub enum Mark {
    /// It wasn't there yet.
    New,
    /// It is below this place.
    Open,
    /// It was at all places below this one.
    Done,
}

/// Where the walk stands.
#[derive(Drop)]
pub struct Walk {
    /// Of each place.
    pub marks: Vec<Mark>,
    /// Of each place: so many of its children, from the first on, are done.
    pub next: Vec<usize>,
    /// The places that are open, from the first down to the last.
    pub way: Vec<u32>,
    /// The places that are done, in the order in which they were.
    pub order: Vec<u32>,
}

impl Walk {
    /// Goes on to a place.
    pub fn enter(&mut self, place: u32) -> Result<(), AllocError>
        requires { place < vec_len self.old.marks }
        ensures way { OnOk result (self.new.way.items ≡ self.old.way.items ++ place ∷ []) }
        ensures marks { OnOk result (PutsMark place Mark.Open self.old self.new) }
        ensures next { OnOk result (self.new.next.items ≡ self.old.next.items) }
        ensures order { OnOk result (self.new.order.items ≡ self.old.order.items) }
    {
        self.way.push(place)?;
        self.marks[place as usize] = Mark::Open;
        Ok(())
    }

    /// Goes back from the last place, which is done.
    pub fn leave(&mut self, place: u32) -> Result<(), AllocError>
        requires { place < vec_len self.old.marks }
        ensures way { OnOk result (self.new.way.items ≡ without_last self.old.way.items) }
        ensures marks { OnOk result (PutsMark place Mark.Done self.old self.new) }
        ensures next { OnOk result (self.new.next.items ≡ self.old.next.items) }
        ensures order { OnOk result (self.new.order.items ≡ self.old.order.items ++ place ∷ []) }
    {
        self.order.push(place)?;
        self.way.pop();
        self.marks[place as usize] = Mark::Done;
        Ok(())
    }

    /// One step: past children that are done, and then down to the next child or back. `false` where that child is on
    /// the way down already.
    pub fn step<N: Node>(&mut self, nodes: &[N]) -> Result<bool, AllocError>
        requires in_range { AreInRange (map N.names nodes.now) }
        requires walk { HoldsWalk (map N.names nodes.now) self.old }
        requires some { 0 < vec_len self.old.way }
        ensures walk { IfOk result (λ on. on ≡ true → HoldsWalk (map N.names nodes.now) self.new) }
        ensures cycle { IfOk result (λ on. on ≡ false → HasCycle (map N.names nodes.now)) }
        ensures marked { OnOk result (StayMarked self.old self.new) }
        ensures less { IfOk result (λ on. on ≡ true → left_of self.new < left_of self.old) }
    {
        let place = self.last();
        let children = children_of(nodes, place);
        let passed = self.pass(place, children);
        if passed == children.len() {
            self.leave(place)?;
            return Ok(true);
        }
        let child = children[passed];
        if self.is_open(child) {
            return Ok(false);
        }
        self.enter(child)?;
        Ok(true)
    }

    /// Whether the walk wasn't at a place yet.
    pub fn is_new(&self, place: usize) -> bool
        requires { place < vec_len self.now.marks }
        ensures { IsTrue result ↔ (mark_at self.now.marks.items place ≡ Mark.New) }
    {
        match self.marks[place] {
            Mark::New => true,
            Mark::Open | Mark::Done => false,
        }
    }

    // Whether the way goes through a place.
    fn is_open(&self, place: u32) -> bool
        requires { place < vec_len self.now.marks }
        ensures { IsTrue result ↔ (mark_at self.now.marks.items place ≡ Mark.Open) }
    {
        match self.marks[place as usize] {
            Mark::Open => true,
            Mark::New | Mark::Done => false,
        }
    }

    // The place that the walk stands at.
    fn last(&self) -> u32
        requires { 0 < vec_len self.now.way }
        ensures { result ≡ slice_index self.now.way.items (length self.now.way.items - 1) }
    {
        self.way[self.way.len() - 1]
    }

    // Past the place's children that are done: so many of them, from the first on, are.
    fn pass(&mut self, place: u32, children: &[u32]) -> usize
        requires marked { All (λ y. y < vec_len self.old.marks) children.now }
        requires counted { place < vec_len self.old.next }

        // Up to the first that isn't done, or to the end.
        ensures within { result ≤ length children.now }
        ensures passed { PassesDone self.old children.now place result }
        ensures stop { StopsAt self.old.marks.items children.now result }

        // Only the count changes.
        ensures next { self.new.next.items ≡ slice_set self.old.next.items place result }
        ensures others { OnlyCounts self.old self.new }
    {
        let passed = first_not_done(children, self.next[place as usize], &self.marks);
        self.next[place as usize] = passed;
        passed
    }
}

// What the node at a place names.
pub fn children_of<N: Node>(nodes: &[N], place: u32) -> &[u32]
    requires { place < length nodes.now }
    ensures { result.now ≡ children_at (map N.names nodes.now) place }
{
    nodes[place as usize].children()
}

// The first of these places, from the one at `from` on, that isn't done; their number if all are.
fn first_not_done(children: &[u32], from: usize, marks: &[Mark]) -> usize
    requires { All (λ y. y < length marks.now) children.now }
    ensures within { result ≤ length children.now }
    ensures done { AreDone marks.now children.now from result }
    ensures next { StopsAt marks.now children.now result }
{
    for at in from..children.len() {
        match marks[children[at] as usize] {
            Mark::Done => {}
            Mark::New | Mark::Open => return at,
        }
    }
    children.len()
}
