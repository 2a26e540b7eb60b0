ghost use Rattle.std.specs.Prelude.{◌≡◌, ℕ, ◌+◌, ◌<◌, ◌≤◌, true, false, List, [], ◌++◌, length, vec_len, vec_capacity, MatchResult};
ghost use Rattle.forest.specs.Faults.{faulted};
ghost use Rattle.forest.specs.declared.fault.Reason.TheVariants.{SpaceShort};
ghost use Rattle.forest.specs.Stores.{holds, asked_integer, asked_boolean, asked_string, asked_element};
ghost use Rattle.arena.specs.Rows.{row_sound};
ghost use Rattle.arena.specs.Arenas.{Made, Added, Extended, behind};

use crate::arena::Arena;
use crate::row::{Row, Span};
use forest::{Fault, Reason, boolean_in_range, handles_in_range, integer_in_range, tag_in_range};

/// Making, whatever `base` trees stand below. The fault of a refusal carries the layer of the store that asks.
impl Arena {
    pub fn make_integer(&mut self, layer: u8, value: i64) -> Result<u32, Fault>
        ensures { Made layer (λ _. asked_integer value) self.old result self.new }
    {
        if !integer_in_range(value) {
            return Err(Fault::new(Reason::OutOfRange, layer, 0));
        }
        self.check_space(layer, 0, 0)?;
        Ok(self.add(Row::Integer(value)))
    }

    pub fn make_boolean(&mut self, layer: u8, value: u32) -> Result<u32, Fault>
        ensures { Made layer (λ _. asked_boolean value) self.old result self.new }
    {
        if !boolean_in_range(value) {
            return Err(Fault::new(Reason::OutOfRange, layer, 0));
        }
        self.check_space(layer, 0, 0)?;
        Ok(self.add(Row::Boolean(value >= 1)))
    }

    pub fn make_string(&mut self, layer: u8, text: &[u8]) -> Result<u32, Fault>
        ensures { Made layer (λ _. asked_string text.now) self.old result self.new }
    {
        self.check_space(layer, 0, text.len())?;
        let span = self.put_text(text);
        Ok(self.add(Row::String(span)))
    }

    #[tactic(auto, using(crate::proofs::Trees::long_kids))]
    pub fn make_element(&mut self, layer: u8, tag: u32, children: &[u32]) -> Result<u32, Fault>
        ensures { Made layer (λ trees. asked_element trees tag children.now) self.old result self.new }
    {
        if !tag_in_range(tag) || !handles_in_range(children, self.count()) {
            return Err(Fault::new(Reason::OutOfRange, layer, 0));
        }
        self.check_space(layer, children.len(), 0)?;
        let span = self.put_children(children);
        Ok(self.add(Row::Element(tag as u16, span)))
    }

    /// Refuses where there is no space for one more tree, of so many child entries and bytes of text.
    fn check_space(&self, layer: u8, children: usize, bytes: usize) -> Result<(), Fault>
        ensures { MatchResult result (λ _. holds self.now.space (record { trees = 1; children = children; bytes = bytes }) ≡ true) (λ fault. (holds self.now.space (record { trees = 1; children = children; bytes = bytes }) ≡ false) × (fault ≡ faulted SpaceShort layer 0)) }
    {
        let space = self.space;
        if space.trees >= 1
            && children <= space.children as usize
            && bytes <= space.bytes as usize
        {
            Ok(())
        } else {
            Err(Fault::new(Reason::SpaceShort, layer, 0))
        }
    }

    /// One row more, for which there is space.
    pub(crate) fn add(&mut self, row: Row) -> u32
        requires space { 1 ≤ self.old.space.trees }
        requires good { row_sound (self.old.base + vec_len self.old.rows) self.old.children.items self.old.text.items row ≡ true }
        ensures { Added self.old self.new row result }
    {
        let handle = self.base + self.rows.len() as u32;
        self.space.trees -= 1;
        self.rows.push_reserved(row);
        handle
    }

    // Entries and text are put alike, by `put`, but each counts in a number of the space of its own.

    /// Child entries, for which there is space.
    pub(crate) fn put_children(&mut self, children: &[u32]) -> Span
        requires { length children.now ≤ self.old.space.children }
        ensures extended { Extended self.old self.new children.now [] }
        ensures span { result ≡ behind self.old.children.items children.now }
    {
        let span = put(&mut self.children, children);
        self.space.children -= span.length;
        span
    }

    /// Bytes of text, for which there is space.
    pub(crate) fn put_text(&mut self, text: &[u8]) -> Span
        requires { length text.now ≤ self.old.space.bytes }
        ensures extended { Extended self.old self.new [] text.now }
        ensures span { result ≡ behind self.old.text.items text.now }
    {
        let span = put(&mut self.text, text);
        self.space.bytes -= span.length;
        span
    }
}

/// Puts more behind what is there, within memory that was taken before.
fn put<T: Copy>(items: &mut Vec<T>, more: &[T]) -> Span
    requires few { vec_len items.old + length more.now ≤ 1000000 }
    requires reserved { vec_len items.old + length more.now ≤ vec_capacity items.old }
    ensures items { items.new.items ≡ items.old.items ++ more.now }
    ensures capacity { vec_capacity items.old ≤ vec_capacity items.new }
    ensures span { result ≡ behind items.old.items more.now }
{
    let span = Span {
        from: items.len() as u32,
        length: more.len() as u32,
    };
    items.extend_from_slice(more).unwrap();
    span
}
