ghost use Rattle.std.specs.Prelude.{◌≡◌, ◌-◌, ◌^◌, ◌<◌, max, length, IfOk, vec_len, nat_lt, slice_index_or};
ghost use Rattle.forest.specs.Forests.{depth, forest};
ghost use Rattle.forest.specs.Stores.{children_at, nothing};
ghost use Rattle.nesting.specs.Levels.{deepest, item_depth};

use forest::{Kind, Store};
use std::alloc::{AllocError, Global};

/// A level of a walk down the trees of a store: a mark for each tree says whether it stands there.
#[derive(Drop)]
pub(crate) struct Level<'a, S: Store> {
    store: &'a S,
    marks: Vec<bool>,
    ghost each_marked: { vec_len marks ≡ length (S.Store.means store.now).trees },
    ghost few: { vec_len marks < 2 ^ 32 },
}

impl<'a, S: Store> Level<'a, S> {
    /// A level where no tree stands.
    pub(crate) fn new(alloc: Global, store: &'a S) -> Result<Level<'a, S>, AllocError>
        ensures store { IfOk result (λ level. level.store.now ≡ store.now) }
        ensures empty { IfOk result (λ level. deepest (S.Store.means store.now).trees level.marks.items ≡ 0) }
    {
        let marks = vec![in alloc; false; store.count() as usize]?;
        Ok(Level { store, marks })
    }

    /// Marks the tree that a handle names; one past the end is left out.
    pub(crate) fn mark(&mut self, handle: u32)
        ensures store { self.new.store ≡ self.old.store }
        ensures deeper { deepest (S.Store.means self.old.store.now).trees self.new.marks.items ≡ max (deepest (S.Store.means self.old.store.now).trees self.old.marks.items) (item_depth (slice_index_or (S.Store.means self.old.store.now).trees handle nothing)) }
    {
        let place = handle as usize;
        if place < self.marks.len() {
            self.marks[place] = true;
        }
    }

    /// Marks the children of the tree that a handle names.
    fn mark_children(&mut self, handle: u32)
        ensures store { self.new.store ≡ self.old.store }
        ensures deeper { deepest (S.Store.means self.old.store.now).trees self.new.marks.items ≡ max (deepest (S.Store.means self.old.store.now).trees self.old.marks.items) (depth (forest (children_at (S.Store.means self.old.store.now).trees handle))) }
    {
        // A store lends no list of children: each is asked for by its place.
        for index in 0..self.store.child_count(handle) {
            self.mark(self.store.child(handle, index));
        }
    }

    /// Whether an element stands at the level.
    pub(crate) fn has_element(&self) -> bool
        ensures { result ≡ nat_lt 0 (deepest (S.Store.means self.now.store.now).trees self.now.marks.items) }
    {
        self.marks
            .iter()
            .enumerate()
            .any(|(place, marked)| *marked && self.is_element(place as u32))
    }

    /// Whether a handle names an element.
    fn is_element(&self, handle: u32) -> bool
        ensures { result ≡ nat_lt 0 (item_depth (slice_index_or (S.Store.means self.now.store.now).trees handle nothing)) }
    {
        self.store.kind(handle) == Some(Kind::Element)
    }

    /// The level below: the children of the trees that stand at this one.
    pub(crate) fn next(&self, alloc: Global) -> Result<Level<'a, S>, AllocError>
        ensures store { IfOk result (λ below. below.store.now ≡ self.now.store.now) }
        ensures below { IfOk result (λ below. deepest (S.Store.means self.now.store.now).trees below.marks.items ≡ deepest (S.Store.means self.now.store.now).trees self.now.marks.items - 1) }
    {
        let mut below = Level::new(alloc, self.store)?;
        for (handle, marked) in self.marks.iter().enumerate() {
            if *marked {
                below.mark_children(handle as u32);
            }
        }
        Ok(below)
    }
}
