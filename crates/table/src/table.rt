ghost use Rattle.std.specs.Prelude.{◌≡◌, []};
ghost use Rattle.arena.specs.Arenas.{means_over};

use arena::Arena;
use forest::{Fault, Kind, Space, Store};

/// A store of trees given row by row. It takes no more.
#[derive(Drop)]
pub struct Table {
    pub(crate) own: Arena,
    ghost ground: { own.base ≡ 0 },
}

impl Store for Table {
    const LAYER: u8 = 4;

    ghost LAYER = { 4 };

    ghost means = { λ t. means_over [] t.own };

    fn count(&self) -> u32 {
        self.own.count()
    }

    fn space(&self) -> Space {
        self.own.space()
    }

    fn kind(&self, handle: u32) -> Option<Kind> {
        self.own.kind(handle)
    }

    fn tag(&self, handle: u32) -> u16 {
        self.own.tag(handle)
    }

    fn child_count(&self, handle: u32) -> u32 {
        self.own.child_count(handle)
    }

    fn child(&self, handle: u32, index: u32) -> u32 {
        self.own.child(handle, index)
    }

    fn value(&self, handle: u32) -> i64 {
        self.own.value(handle)
    }

    fn text_length(&self, handle: u32) -> u32 {
        self.own.text_length(handle)
    }

    fn text_byte(&self, handle: u32, index: u32) -> u8 {
        self.own.text_byte(handle, index)
    }

    fn make_integer(&mut self, value: i64) -> Result<u32, Fault> {
        self.own.make_integer(Self::LAYER, value)
    }

    fn make_boolean(&mut self, value: u32) -> Result<u32, Fault> {
        self.own.make_boolean(Self::LAYER, value)
    }

    fn make_string(&mut self, text: &[u8]) -> Result<u32, Fault> {
        self.own.make_string(Self::LAYER, text)
    }

    fn make_element(&mut self, tag: u32, children: &[u32]) -> Result<u32, Fault> {
        self.own.make_element(Self::LAYER, tag, children)
    }
}
