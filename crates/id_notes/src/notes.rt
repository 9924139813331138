//! Which names hear the frames of which ids.
ghost use Rattle.std.specs.Prelude.{◌≡◌, ◌==◌, ℕ, [], false, Some, IfSome, OnOk};
ghost use Rattle.std.specs.List.{IsDistinct};
ghost use Rattle.std.specs.Map.{lookup};
ghost use Rattle.std.specs.Option.{option_copied};

use crate::marks::{is_marked, mark, note_place, unmark};
use heard_ids::Hearing;
use indexmap::{IndexMap, IndexSet};
use std::alloc::{AllocError, Global};
use std::hash::Hash;

/// For each id the names of those that hear its frames.
#[derive(Drop)]
pub struct Notes<N: Eq + Hash> {
    /// A name that hears every atom isn't noted here for that. No id has an empty list.
    by_id: IndexMap<u32, IndexSet<N>>,
    /// Those that hear every atom.
    for_all: IndexSet<N>,
    /// Which of the low ids have a list.
    marks: Vec<bool>,
    /// Where the list of a low id stood when it began. That is looked at first, and need not be so any more.
    places: Vec<usize>,
}

impl<N: Eq + Hash + Copy + Drop> Notes<N> {
    ghost use Rattle.id_notes.specs.Noted.{names_under, names_for_all, wants_id, AddsIf, DropsIf, AddsUnder, DropsUnder, HasNoEmptyList};

    /// Nothing is noted. It takes no memory yet.
    pub fn new(alloc: Global) -> Notes<N>
        ensures under { (id : ℕ) → names_under result id ≡ [] }
        ensures for_all { names_for_all result ≡ [] }
        ensures none_empty { HasNoEmptyList result }
    {
        Notes {
            by_id: IndexMap::new(alloc),
            for_all: IndexSet::new(alloc),
            marks: Vec::new(alloc),
            places: Vec::new(alloc),
        }
    }

    /// The names that are noted for an id.
    pub fn under(&self, id: u32) -> &[N]
        ensures names { result.now ≡ names_under self.now id }
        ensures distinct { IsDistinct N.eq result.now }
    {
        if !is_marked(self.marks.as_slice(), id) {
            return &[];
        }
        match self.list_of(id) {
            Some(names) => names.as_slice(),
            None => &[],
        }
    }

    // The list of an id. It mostly stands where it began, and then it is found without a hash.
    fn list_of(&self, id: u32) -> Option<&IndexSet<N>>
        ensures { option_copied result ≡ lookup (λ other. id == other) self.now.by_id.entries }
    {
        match self.list_where_it_began(id) {
            Some(names) => Some(names),
            None => self.by_id.get(&id),
        }
    }

    // The list of an id, if it stands where it began.
    #[inline(always)]
    fn list_where_it_began(&self, id: u32) -> Option<&IndexSet<N>>
        ensures { IfSome result (λ names.
            lookup (λ other. id == other) self.now.by_id.entries ≡ Some names.now) }
    {
        let place = self.places.get(id as usize)?;
        let (own, names) = self.by_id.get_index(*place)?;
        if *own == id { Some(names) } else { None }
    }

    /// Whether a name may be noted for an id: there is none where this is false. It costs no look-up.
    pub fn may_have(&self, id: u32) -> bool
        ensures { result ≡ false → names_under self.now id ≡ [] }
    {
        is_marked(self.marks.as_slice(), id)
    }

    /// The names of those that hear every atom.
    pub fn for_all(&self) -> &[N]
        ensures names { result.now ≡ names_for_all self.now }
        ensures distinct { IsDistinct N.eq result.now }
    {
        self.for_all.as_slice()
    }

    /// A name is noted for what it hears. After want of memory some of it may be.
    pub fn add(&mut self, alloc: Global, name: N, hearing: &Hearing) -> Result<(), AllocError>
        ensures under { OnOk result (AddsUnder N.eq name (wants_id hearing.now) self.old self.new) }
        ensures for_all { OnOk result
            (AddsIf N.eq name hearing.now.all (names_for_all self.old) (names_for_all self.new)) }
        ensures none_empty { HasNoEmptyList self.old → HasNoEmptyList self.new }
    {
        if hearing.all {
            self.for_all.insert(name)?;
            return Ok(());
        }
        for id in hearing.ids.as_slice() {
            self.note(alloc, *id, name)?;
        }
        Ok(())
    }

    /// A name isn't noted any more for what it hears.
    pub fn remove(&mut self, name: N, hearing: &Hearing)
        ensures under { DropsUnder N.eq name (wants_id hearing.now) self.old self.new }
        ensures for_all { DropsIf N.eq name hearing.now.all (names_for_all self.old) (names_for_all self.new) }
        ensures none_empty { HasNoEmptyList self.old → HasNoEmptyList self.new }
    {
        if hearing.all {
            self.for_all.swap_remove(&name);
            return;
        }
        for id in hearing.ids.as_slice() {
            self.forget(*id, name);
        }
    }

    // A name is noted for an id.
    fn note(&mut self, alloc: Global, id: u32, name: N) -> Result<(), AllocError>
        ensures under { OnOk result (AddsUnder N.eq name (λ heard. id == heard) self.old self.new) }
        ensures for_all { OnOk result (self.new.for_all ≡ self.old.for_all) }
        ensures none_empty { HasNoEmptyList self.old → HasNoEmptyList self.new }
    {
        if !is_marked(self.marks.as_slice(), id) {
            return self.begin(alloc, id, name);
        }
        if let Some(names) = self.by_id.get_mut(&id) {
            names.insert(name)?;
            return Ok(());
        }
        self.begin(alloc, id, name)
    }

    // A name is the first that is noted for an id.
    fn begin(&mut self, alloc: Global, id: u32, name: N) -> Result<(), AllocError>
        requires { names_under self.old id ≡ [] }
        ensures under { OnOk result (AddsUnder N.eq name (λ heard. id == heard) self.old self.new) }
        ensures for_all { OnOk result (self.new.for_all ≡ self.old.for_all) }
        ensures none_empty { HasNoEmptyList self.old → HasNoEmptyList self.new }
    {
        let mut names = IndexSet::new(alloc);
        names.insert(name)?;
        mark(&mut self.marks, id)?;
        note_place(&mut self.places, id, self.by_id.len())?;
        self.by_id.insert(id, names)?;
        Ok(())
    }

    // A name isn't noted for an id any more. A list that gets empty goes.
    fn forget(&mut self, id: u32, name: N)
        ensures under { DropsUnder N.eq name (λ heard. id == heard) self.old self.new }
        ensures for_all { self.new.for_all ≡ self.old.for_all }
        ensures none_empty { HasNoEmptyList self.old → HasNoEmptyList self.new }
    {
        if !is_marked(self.marks.as_slice(), id) {
            return;
        }
        let Some(names) = self.by_id.get_mut(&id) else {
            return;
        };
        names.swap_remove(&name);
        if names.is_empty() {
            self.by_id.swap_remove(&id);
            unmark(self.marks.as_mut_slice(), id);
        }
    }
}
