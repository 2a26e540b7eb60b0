ghost use Rattle.std.specs.Prelude.{◌≡◌, ◌<◌, length, true};
ghost use Rattle.forest.specs.Forests.{forest};
ghost use Rattle.forest.specs.Stores.{children_at, all_below, picked};
ghost use Rattle.types.specs.Parts.{Root};
ghost use Rattle.types.specs.Belonging.{Belongs};
ghost use Rattle.types.specs.Tables.{Exactly};
ghost use Rattle.positions.specs.Built.{types_of};
ghost use Rattle.validation.specs.Walking.{OneWayTypes, Known, Stepped, tree_at};

use crate::marks::Marks;
use crate::reading::Walk;
use forest::Store;

impl<'a, S: Store> Walk<'a, S> {
    /// One step from a place of a root over a tree: to the place behind the item row that takes it, if one does. Roots are one-way, so at most one suits it.
    #[cycle(belonging)]
    fn step(&self, place: u32, handle: u32, marks: &mut Marks) -> Option<u32>
        requires one_way { OneWayTypes self.now.positions.now }
        requires there { handle < length (S.Store.means self.now.store.now).trees }
        requires known { Known (types_of self.now.positions.now) (S.Store.means self.now.store.now).trees marks.old.words.items }
        ensures step { Stepped self.now.positions.now place (tree_at (S.Store.means self.now.store.now).trees handle) result }
        ensures known { Known (types_of self.now.positions.now) (S.Store.means self.now.store.now).trees marks.new.words.items }
    {
        let kind = self.store.kind(handle)?;
        let item = self.suitable_item(place, kind, self.store.tag(handle))?;
        match self.content_of(item) {
            Some(content) if !self.children_belong(handle, content, marks) => None,
            _ => Some(512 + item),
        }
    }

    /// Whether the children of a tree belong to a root. Those that do are marked, so that a tree which stands in many places is walked once for a root.
    #[cycle(belonging)]
    fn children_belong(&self, handle: u32, root: u32, marks: &mut Marks) -> bool
        requires one_way { OneWayTypes self.now.positions.now }
        requires root { Root (types_of self.now.positions.now) root }
        requires known { Known (types_of self.now.positions.now) (S.Store.means self.now.store.now).trees marks.old.words.items }
        ensures exact { Exactly result (Belongs (types_of self.now.positions.now) root (forest (children_at (S.Store.means self.now.store.now).trees handle))) }
        ensures known { Known (types_of self.now.positions.now) (S.Store.means self.now.store.now).trees marks.new.words.items }
    {
        if marks.has(handle, root) {
            return true;
        }
        let mut place = root;
        // A store lends no list of children: each is asked for by its place.
        for index in 0..self.store.child_count(handle) {
            let child = self.store.child(handle, index);
            let Some(next) = self.step(place, child, marks) else {
                return false;
            };
            place = next;
        }
        if !self.positions.may_end(root, place) {
            return false;
        }
        marks.insert(handle, root);
        true
    }

    /// Whether the trees that handles name belong to a root.
    pub(crate) fn forest_belongs(&self, handles: &[u32], root: u32, marks: &mut Marks) -> bool
        requires one_way { OneWayTypes self.now.positions.now }
        requires root { Root (types_of self.now.positions.now) root }
        requires there { all_below (length (S.Store.means self.now.store.now).trees) handles.now ≡ true }
        requires known { Known (types_of self.now.positions.now) (S.Store.means self.now.store.now).trees marks.old.words.items }
        ensures { Exactly result (Belongs (types_of self.now.positions.now) root (forest (picked (S.Store.means self.now.store.now).trees handles.now))) }
    {
        let mut place = root;
        for handle in handles {
            let Some(next) = self.step(place, *handle, marks) else {
                return false;
            };
            place = next;
        }
        self.positions.may_end(root, place)
    }
}
