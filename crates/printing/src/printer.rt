ghost use Rattle.std.specs.Prelude.{◌≡◌, [], map};
ghost use Rattle.forest.specs.Stores.{children_at, tag_at, text_at};
ghost use Rattle.printing.specs.Items.{item_printed, printed_at};
ghost use Rattle.printing.specs.Printed.{element_printed, joined, quoted};
ghost use Rattle.printing.specs.Writing.{Adds};

use crate::stop::Stop;
use crate::text::Text;
use forest::{Kind, Store};
use std::alloc::Global;

/// What prints trees of a store, and the text so far. A text that grows too long ends the walk, so printing costs no more than there is
/// room, even where trees share parts.
#[derive(Drop)]
pub(crate) struct Printer<'a, S: Store> {
    store: &'a S,
    text: Text,
}

impl<'a, S: Store> Printer<'a, S> {
    /// A printer that has printed nothing, and may print so many bytes.
    pub(crate) fn new(alloc: Global, store: &'a S, limit: usize) -> Printer<'a, S>
        ensures store { result.store.now ≡ store.now }
        ensures empty { result.text.bytes.items ≡ [] }
        ensures limit { result.text.limit ≡ limit }
    {
        Printer {
            store,
            text: Text::new(alloc, limit),
        }
    }

    /// What was printed so far.
    pub(crate) fn text(&self) -> &[u8]
        ensures { result.now ≡ self.now.text.bytes.items }
    {
        self.text.as_bytes()
    }

    /// Writes the trees that handles name, parted by commas.
    pub(crate) fn write_forest(&mut self, handles: &[u32]) -> Result<(), Stop>
        ensures { Adds result self.old.text self.new.text (joined (map (printed_at (S.Store.means self.old.store.now).trees) handles.now)) }
    {
        for (place, handle) in handles.iter().enumerate() {
            self.text.push_separator(place)?;
            self.write_item(*handle)?;
        }
        Ok(())
    }

    /// Writes the tree that a handle names; nothing for one that is not there.
    #[cycle(write_children_write_element_write_item)]
    fn write_item(&mut self, handle: u32) -> Result<(), Stop>
        ensures store { self.new.store ≡ self.old.store }
        ensures text { Adds result self.old.text self.new.text (printed_at (S.Store.means self.old.store.now).trees handle) }
    {
        match self.store.kind(handle) {
            None => Ok(()),
            Some(Kind::Integer) => self.text.push_number(self.store.value(handle)),
            Some(Kind::String) => self.write_string(handle),
            Some(Kind::Boolean) => self.text.push_boolean(self.store.value(handle) != 0),
            Some(Kind::Element) => self.write_element(handle),
        }
    }

    /// Writes a tag, and the children in brackets.
    #[cycle(write_children_write_element_write_item)]
    fn write_element(&mut self, handle: u32) -> Result<(), Stop>
        ensures store { self.new.store ≡ self.old.store }
        ensures text { Adds result self.old.text self.new.text (element_printed (tag_at (S.Store.means self.old.store.now).trees handle) (map item_printed (children_at (S.Store.means self.old.store.now).trees handle))) }
    {
        self.text.push_natural(u64::from(self.store.tag(handle)))?;
        self.text.push(b'[')?;
        self.write_children(handle)?;
        self.text.push(b']')
    }

    /// Writes the children of an element, parted by commas.
    #[cycle(write_children_write_element_write_item)]
    fn write_children(&mut self, handle: u32) -> Result<(), Stop>
        ensures store { self.new.store ≡ self.old.store }
        ensures text { Adds result self.old.text self.new.text (joined (map item_printed (children_at (S.Store.means self.old.store.now).trees handle))) }
    {
        // A store lends no list of children: each is asked for by its place, and only as far as the text has room.
        for index in 0..self.store.child_count(handle) {
            self.text.push_separator(index as usize)?;
            self.write_item(self.store.child(handle, index))?;
        }
        Ok(())
    }

    /// Writes a String in quotes.
    fn write_string(&mut self, handle: u32) -> Result<(), Stop>
        ensures store { self.new.store ≡ self.old.store }
        ensures text { Adds result self.old.text self.new.text (quoted (text_at (S.Store.means self.old.store.now).trees handle)) }
    {
        self.text.push(b'"')?;
        // A store lends no slice of a String: its bytes are asked for one by one.
        for index in 0..self.store.text_length(handle) {
            self.text.push_escaped(self.store.text_byte(handle, index))?;
        }
        self.text.push(b'"')
    }
}
