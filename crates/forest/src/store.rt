ghost use Rattle.std.specs.Prelude.{◌≡◌, ℕ, length, slice_index};
ghost use Rattle.forest.specs.Stores.{Meaning, Sound, kind_at, tag_at, children_at, value_at, text_at, Child, make, asked_integer, asked_boolean, asked_string, asked_element};

use crate::fault::Fault;
use crate::kind::Kind;
use crate::space::Space;

/// A store of trees. What it means is a list of trees and three numbers of space; a handle is a place in that list.
/// Reading changes nothing. What is not there has no kind, and its numbers read 0, as the formats ask; `kind` and the counts tell whether it
/// is there. Making adds one tree at the end, or is refused and changes nothing.
pub trait Store {
    /// The layer that this kind of store names in its faults.
    const LAYER: u8;

    ghost LAYER: { ℕ };

    ghost means: { Self → Meaning };

    /// The number of trees.
    fn count(&self) -> u32
        ensures value { result ≡ length (means self.now).trees }
        ensures sound { Sound (means self.now) };

    fn space(&self) -> Space
        ensures { result ≡ (means self.now).space };

    fn kind(&self, handle: u32) -> Option<Kind>
        ensures { result ≡ kind_at (means self.now).trees handle };

    fn tag(&self, handle: u32) -> u16
        ensures { result ≡ tag_at (means self.now).trees handle };

    fn child_count(&self, handle: u32) -> u32
        ensures { result ≡ length (children_at (means self.now).trees handle) };

    /// The handle of child `index`.
    fn child(&self, handle: u32, index: u32) -> u32
        ensures { Child (means self.now).trees handle index result };

    /// An Integer's value; of a Boolean 0 or 1.
    fn value(&self, handle: u32) -> i64
        ensures { result ≡ value_at (means self.now).trees handle };

    fn text_length(&self, handle: u32) -> u32
        ensures { result ≡ length (text_at (means self.now).trees handle) };

    fn text_byte(&self, handle: u32, index: u32) -> u8
        ensures { result ≡ slice_index (text_at (means self.now).trees handle) index };

    fn make_integer(&mut self, value: i64) -> Result<u32, Fault>
        ensures { (result, means self.new) ≡ make LAYER (asked_integer value) (means self.old) };

    /// 0 is false and 1 is true. Any other number is refused, so this is no `bool`.
    fn make_boolean(&mut self, value: u32) -> Result<u32, Fault>
        ensures { (result, means self.new) ≡ make LAYER (asked_boolean value) (means self.old) };

    fn make_string(&mut self, text: &[u8]) -> Result<u32, Fault>
        ensures { (result, means self.new) ≡ make LAYER (asked_string text.now) (means self.old) };

    fn make_element(&mut self, tag: u32, children: &[u32]) -> Result<u32, Fault>
        ensures { (result, means self.new) ≡ make LAYER (asked_element (means self.old).trees tag children.now) (means self.old) };
}
