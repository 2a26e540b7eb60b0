ghost use Rattle.std.specs.Prelude.{◌≡◌, ◌+◌, ◌*◌, ◌<◌, true, ◌↔◌, length, IfOk, MatchResult, IsTrue};
ghost use Rattle.forest.specs.Forests.{forest, lawful};
ghost use Rattle.arena.specs.Arenas.{means_over};
ghost use Rattle.arena.specs.Renewal.{InPlace, allowed_beside, has_room};
ghost use Rattle.overlay.specs.Overlays.{cut, opened};

use arena::Arena;
use forest::{Fault, Kind, Space, Store};
use std::alloc::Global;

/// The most that an overlay allows.
const MOST: Space = Space {
    trees: 2048,
    children: 4096,
    bytes: 4096,
};

/// Trees above those of any store, which is read and never made into.
#[derive(Drop)]
pub struct Overlay<S: Store + Drop> {
    below: S,
    own: Arena,
    ghost fits: { own.base ≡ length (S.Store.means below).trees },
    ghost lawful_below: { lawful (forest (S.Store.means below).trees) ≡ true },
}

impl<S: Store + Drop> Overlay<S> {
    /// Opens an overlay with these allowances, as far as they may go. Memory for all of them is taken now; where it is short the store
    /// comes back as it was.
    pub fn open(alloc: Global, below: S, allowances: Space) -> Result<Overlay<S>, S>
        ensures { MatchResult result (λ t. means_over (S.Store.means t.below).trees t.own ≡ record { trees = (S.Store.means below).trees; space = opened (length (S.Store.means below).trees) allowances }) (λ s. s ≡ below) }
    {
        Overlay::open_with_room(alloc, below, allowances, 0)
    }

    /// Opens an overlay as `open` does, and takes memory for so many renewals too. Where memory is short for all of it the store comes back
    /// as it was.
    pub fn open_with_room(
        alloc: Global,
        below: S,
        allowances: Space,
        renewals: u8,
    ) -> Result<Overlay<S>, S>
        ensures opened { MatchResult result (λ t. means_over (S.Store.means t.below).trees t.own ≡ record { trees = (S.Store.means below).trees; space = opened (length (S.Store.means below).trees) allowances }) (λ s. s ≡ below) }
        ensures room { IfOk result (λ t. has_room t.own (record { trees = t.own.space.trees + renewals * 2048; children = t.own.space.children + renewals * 4096; bytes = t.own.space.bytes + renewals * 4096 }) ≡ true) }
    {
        let renewals = u32::from(renewals);
        let room = Space {
            trees: renewals * MOST.trees,
            children: renewals * MOST.children,
            bytes: renewals * MOST.bytes,
        };
        match Arena::open_with_room(alloc, below.count(), cut(allowances), room) {
            Ok(own) => Ok(Overlay { below, own }),
            Err(_) => Err(below),
        }
    }

    /// The overlay with these allowances in place of what was left of its own, as if another were opened over it. Nothing is copied where it
    /// has memory for them; else all of its trees are. Where memory is short, or child entries or text would pass a million, it comes back as
    /// it was.
    pub fn renew(mut self, alloc: Global, allowances: Space) -> Result<Overlay<S>, Overlay<S>>
        ensures renewed { MatchResult result (λ t. means_over (S.Store.means t.below).trees t.own ≡ record { trees = (means_over (S.Store.means self.below).trees self.own).trees; space = opened (length (means_over (S.Store.means self.below).trees self.own).trees) allowances }) (λ t. t ≡ self) }
        ensures in_place { IfOk result (λ t. has_room self.own (allowed_beside self.own (cut allowances)) ≡ true → InPlace self.own t.own) }
    {
        let space = cut(allowances);
        let allowed = self.own.allowed_beside(space);
        if allowed.children < space.children || allowed.bytes < space.bytes {
            return Err(self);
        }
        if self.own.has_room(allowed) {
            self.own.renew_in_place(space).unwrap();
            return Ok(self);
        }
        match self.own.renewed(alloc, space) {
            Ok(own) => Ok(Overlay {
                below: self.below,
                own,
            }),
            Err(_) => Err(self),
        }
    }

    /// Whether a handle is one of the store below.
    fn is_below(&self, handle: u32) -> bool
        ensures { IsTrue result ↔ (handle < self.now.own.base) }
    {
        handle < self.own.base()
    }
}

/// Allowances, as far as an overlay may have them.
fn cut(allowances: Space) -> Space
    ensures { result ≡ cut allowances }
{
    Space {
        trees: allowances.trees.min(MOST.trees),
        children: allowances.children.min(MOST.children),
        bytes: allowances.bytes.min(MOST.bytes),
    }
}

#[tactic(auto, using(crate::proofs::Lower::below))]
impl<S: Store + Drop> Store for Overlay<S> {
    const LAYER: u8 = 6;

    ghost LAYER = { 6 };

    ghost means = { λ t. means_over (S.Store.means t.below).trees t.own };

    fn count(&self) -> u32 {
        self.own.count()
    }

    fn space(&self) -> Space {
        self.own.space()
    }

    fn kind(&self, handle: u32) -> Option<Kind> {
        if self.is_below(handle) {
            self.below.kind(handle)
        } else {
            self.own.kind(handle)
        }
    }

    fn tag(&self, handle: u32) -> u16 {
        if self.is_below(handle) {
            self.below.tag(handle)
        } else {
            self.own.tag(handle)
        }
    }

    fn child_count(&self, handle: u32) -> u32 {
        if self.is_below(handle) {
            self.below.child_count(handle)
        } else {
            self.own.child_count(handle)
        }
    }

    fn child(&self, handle: u32, index: u32) -> u32 {
        if self.is_below(handle) {
            self.below.child(handle, index)
        } else {
            self.own.child(handle, index)
        }
    }

    fn value(&self, handle: u32) -> i64 {
        if self.is_below(handle) {
            self.below.value(handle)
        } else {
            self.own.value(handle)
        }
    }

    fn text_length(&self, handle: u32) -> u32 {
        if self.is_below(handle) {
            self.below.text_length(handle)
        } else {
            self.own.text_length(handle)
        }
    }

    fn text_byte(&self, handle: u32, index: u32) -> u8 {
        if self.is_below(handle) {
            self.below.text_byte(handle, index)
        } else {
            self.own.text_byte(handle, index)
        }
    }

    fn make_integer(&mut self, value: i64) -> Result<u32, Fault> {
        self.own.make_integer(Self::LAYER, value)
    }

    fn make_boolean(&mut self, value: u32) -> Result<u32, Fault> {
        self.own.make_boolean(Self::LAYER, value)
    }

    fn make_string(&mut self, text: &[u8]) -> Result<u32, Fault> {
        self.own.make_string(Self::LAYER, text)
    }

    fn make_element(&mut self, tag: u32, children: &[u32]) -> Result<u32, Fault> {
        self.own.make_element(Self::LAYER, tag, children)
    }
}
