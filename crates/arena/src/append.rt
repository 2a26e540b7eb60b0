ghost use Rattle.std.specs.Prelude.{◌≡◌, ℕ, ◌+◌, ◌<◌, ◌≤◌, true, ◌&&◌, length, vec_len};
ghost use Rattle.forest.specs.Stores.{all_below};
ghost use Rattle.arena.specs.Rows.{within, part};
ghost use Rattle.arena.specs.Arenas.{Appended, Filled, fits_behind};

use crate::arena::Arena;
use crate::row::{Row, Span};
use forest::{handles_in_range, integer_in_range, tag_in_range};

/// Filling an arena row by row, for a store that is loaded whole.
impl Arena {
    /// Puts child entries and text behind those that are there. Where the space does not hold them, nothing changes.
    pub fn fill(&mut self, children: &[u32], text: &[u8]) -> Option<()>
        ensures { Filled self.old children.now text.now result self.new }
    {
        if children.len() > self.space.children as usize || text.len() > self.space.bytes as usize {
            return None;
        }
        self.put_children(children);
        self.put_text(text);
        Some(())
    }

    /// Adds a row, and gives its handle. Where the row is not sound or no space is left, nothing changes.
    pub fn append(&mut self, row: Row) -> Option<u32>
        ensures { Appended self.old row result self.new }
    {
        if self.space.trees == 0 || !self.is_sound(row) {
            return None;
        }
        Some(self.add(row))
    }

    /// Whether a row may stand behind those that are there.
    fn is_sound(&self, row: Row) -> bool
        ensures { result ≡ fits_behind self.now row }
    {
        match row {
            Row::Boolean(_) => true,
            Row::Integer(value) => integer_in_range(value),
            Row::String(span) => span.is_within(self.text.len()),
            Row::Element(tag, span) => tag_in_range(u32::from(tag)) && self.names_lower_trees(span),
        }
    }

    /// Whether a span of child entries is there and names trees that are there.
    fn names_lower_trees(&self, span: Span) -> bool
        ensures { result ≡ (within span (length self.now.children.items) && all_below (self.now.base + vec_len self.now.rows) (part span self.now.children.items)) }
    {
        span.is_within(self.children.len())
            && handles_in_range(span.part(&self.children), self.count())
    }
}
