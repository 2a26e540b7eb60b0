ghost use Rattle.std.specs.Prelude.{◌≡◌, ◌<◌, length};
ghost use Rattle.subtyping.specs.Waits.{OnlyVisited, Listed, Busy};

use bits::Relation;

/// A pair of places: the number of the left one, and the row of the right one, which stands alike.
/// A place in a whole type has the number of its row at the start, and 512 more than the item behind it; a place within the row asked about has 1,024 more.
// These numbers are the rows of the relations that moves and pairs are kept in, so an enum of places would be turned into them at every step.
#[derive(Clone, Copy)]
pub struct Pair {
    pub(crate) left: u32,
    pub(crate) right: u32,
    ghost left_low: { left < 2048 },
    ghost right_low: { right < 512 },
}

/// The pairs of places that a search has come to, and those of them that it has yet to look at.
#[derive(Clone, Copy)]
pub struct Pairs {
    pub(crate) visited: Relation<16384>,
    pub(crate) waiting: Relation<16384>,
    /// A bit for each left place: whether a pair of it waits. So the next pair is found without going over all of them.
    pub(crate) places: [u64; 32],
    ghost held: { OnlyVisited visited.words waiting.words },
    ghost long: { length places ≡ 32 },
    ghost listed: { Listed waiting.words places },
    ghost busy: { Busy waiting.words places },
}
