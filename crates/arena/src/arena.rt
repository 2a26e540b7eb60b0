ghost use Rattle.std.specs.Prelude.{◌≡◌, ◌+◌, ◌-◌, ◌≤◌, true, vec_len, vec_capacity};
ghost use Rattle.forest.specs.Forests.{bytes_lawful};
ghost use Rattle.arena.specs.Rows.{sound};

use crate::row::Row;
use forest::Space;

/// Trees that stand above `base` others, with memory for what may still be made. A child entry is a handle: below `base` one of the
/// others, from `base` on a row. Rows name children by handle and own no boxes: handles are the store's own numbers, trees share parts, and
/// all memory is taken when the store opens.
#[derive(Drop)]
pub struct Arena {
    pub(crate) base: u32,
    pub(crate) rows: Vec<Row>,
    pub(crate) children: Vec<u32>,
    pub(crate) text: Vec<u8>,
    pub(crate) space: Space,
    ghost good: { sound base children.items text.items rows.items ≡ true },
    ghost bytes: { bytes_lawful text.items ≡ true },
    ghost base_few: { base ≤ 1000000 },
    ghost rows_few: { vec_len rows + space.trees ≤ 1000000 - base },
    ghost children_few: { vec_len children + space.children ≤ 1000000 },
    ghost text_few: { vec_len text + space.bytes ≤ 1000000 },
    ghost rows_reserved: { vec_len rows + space.trees ≤ vec_capacity rows },
    ghost children_reserved: { vec_len children + space.children ≤ vec_capacity children },
    ghost text_reserved: { vec_len text + space.bytes ≤ vec_capacity text },
}
