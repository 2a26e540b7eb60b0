ghost use Rattle.std.specs.Prelude.{◌≡◌, ◌+◌, true, IfOk};
ghost use Rattle.arena.specs.Arenas.{Opened};
ghost use Rattle.arena.specs.Renewal.{has_room};

use crate::arena::Arena;
use forest::Space;
use std::alloc::{AllocError, Global};

/// No store holds more trees, child entries or text bytes.
pub(crate) const MOST: u32 = 1_000_000;

impl Arena {
    /// An arena with no rows above `base` trees (a million at most), and memory for what `space` allows.
    pub fn open(alloc: Global, base: u32, space: Space) -> Result<Arena, AllocError>
        ensures { IfOk result (Opened base space) }
    {
        let room = Space {
            trees: 0,
            children: 0,
            bytes: 0,
        };
        Arena::open_with_room(alloc, base, space, room)
    }

    /// An arena such as `open` gives, and memory for `room` beside what `space` allows.
    pub fn open_with_room(
        alloc: Global,
        base: u32,
        space: Space,
        room: Space,
    ) -> Result<Arena, AllocError>
        ensures opened { IfOk result (Opened base space) }
        ensures room { IfOk result (λ a. has_room a (record { trees = a.space.trees + room.trees; children = a.space.children + room.children; bytes = a.space.bytes + room.bytes }) ≡ true) }
    {
        let trees = space.trees.min(MOST.saturating_sub(base));
        let children = space.children.min(MOST);
        let bytes = space.bytes.min(MOST);
        Ok(Arena {
            base: base.min(MOST),
            rows: Vec::with_capacity(alloc, trees as usize + room.trees as usize)?,
            children: Vec::with_capacity(alloc, children as usize + room.children as usize)?,
            text: Vec::with_capacity(alloc, bytes as usize + room.bytes as usize)?,
            space: Space {
                trees,
                children,
                bytes,
            },
        })
    }

    /// How many trees stand below.
    pub fn base(&self) -> u32
        ensures { result ≡ self.now.base }
    {
        self.base
    }
}
