ghost use Rattle.std.specs.Prelude.{◌≡◌, length};

use crate::flags::Flags;
use crate::moves::Moves;
use bits::Relation;
use types::TypeRows;

/// What is known of the places of every type in a table: what may come next, where a forest may end, and what can occur at all.
#[derive(Clone, Copy)]
pub struct Positions {
    pub types: TypeRows,
    /// Which rows may be nothing.
    pub nullable: Flags,
    /// Which rows have a forest.
    pub alive: Flags,
    /// The root that each row is within.
    // A bare array, as its numbers are written by the same `give` as the marks and otherwise only read.
    pub tops: [u32; 512],
    /// The last items of each row.
    pub lasts: Relation<4096>,
    /// The moves within whole types.
    pub whole: Moves,
    ghost tops_long: { length tops ≡ 512 },
}
