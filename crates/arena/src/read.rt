ghost use Rattle.std.specs.Prelude.{◌≡◌, ℕ, ◌+◌, ◌^◌, ◌<◌, ◌≤◌, true, List, length, vec_len, slice_index};
ghost use Rattle.forest.specs.Forests.{Item, forest, lawful};
ghost use Rattle.forest.specs.Stores.{kind_at, tag_at, children_at, value_at, text_at, picked, all_below, Child, Sound};
ghost use Rattle.arena.specs.Arenas.{OverAny, Reads, trees_over, means_over, Found};

use crate::arena::Arena;
use crate::row::Row;
use forest::{Kind, Space};

/// Reading by handle, from `base` on, whatever `base` trees stand below.
impl Arena {
    pub fn space(&self) -> Space
        ensures { result ≡ self.now.space }
    {
        self.space
    }

    /// The number of trees, those below included.
    pub fn count(&self) -> u32
        ensures number { result ≡ self.now.base + vec_len self.now.rows }
        ensures value { OverAny self.now (λ below. result ≡ length (trees_over below self.now)) }
        ensures sound { OverAny self.now (λ below. lawful (forest below) ≡ true → Sound (means_over below self.now)) }
    {
        self.base + self.rows.len() as u32
    }

    /// The row at a handle.
    fn row(&self, handle: u32) -> Option<Row>
        ensures { Found self.now handle result }
    {
        let index = handle.checked_sub(self.base)?;
        self.rows.get(index as usize).copied()
    }

    pub fn kind(&self, handle: u32) -> Option<Kind>
        ensures { Reads self.now handle (λ trees. result ≡ kind_at trees handle) }
    {
        self.row(handle).map(Row::kind)
    }

    pub fn tag(&self, handle: u32) -> u16
        ensures { Reads self.now handle (λ trees. result ≡ tag_at trees handle) }
    {
        self.row(handle).map_or(0, Row::tag)
    }

    pub fn value(&self, handle: u32) -> i64
        ensures { Reads self.now handle (λ trees. result ≡ value_at trees handle) }
    {
        self.row(handle).map_or(0, Row::value)
    }

    /// The handles of a tree's children.
    // This and `text` are alike but for the span and the list: a shared one would be given both, and be no shorter.
    fn children(&self, handle: u32) -> &[u32]
        ensures few { length result.now < 2 ^ 32 }
        ensures named { Reads self.now handle (λ trees. (children_at trees handle ≡ picked trees result.now) × (all_below (length trees) result.now ≡ true)) }
    {
        match self.row(handle).and_then(Row::children) {
            Some(span) => span.part(&self.children),
            None => &[],
        }
    }

    #[tactic(auto, using(crate::proofs::Reading::long_picked))]
    pub fn child_count(&self, handle: u32) -> u32
        ensures { Reads self.now handle (λ trees. result ≡ length (children_at trees handle)) }
    {
        self.children(handle).len() as u32
    }

    // This and `text_byte` are alike but for the list that they read; each is one call, so nothing is left to share.
    pub fn child(&self, handle: u32, index: u32) -> u32
        ensures { Reads self.now handle (λ trees. Child trees handle index result) }
    {
        let children = self.children(handle);
        children.get(index as usize).copied().unwrap_or(0)
    }

    /// A String's text.
    fn text(&self, handle: u32) -> &[u8]
        ensures few { length result.now < 2 ^ 32 }
        ensures named { Reads self.now handle (λ trees. text_at trees handle ≡ result.now) }
    {
        match self.row(handle).and_then(Row::text) {
            Some(span) => span.part(&self.text),
            None => &[],
        }
    }

    pub fn text_length(&self, handle: u32) -> u32
        ensures { Reads self.now handle (λ trees. result ≡ length (text_at trees handle)) }
    {
        self.text(handle).len() as u32
    }

    pub fn text_byte(&self, handle: u32, index: u32) -> u8
        ensures { Reads self.now handle (λ trees. result ≡ slice_index (text_at trees handle) index) }
    {
        let text = self.text(handle);
        text.get(index as usize).copied().unwrap_or(0)
    }
}
