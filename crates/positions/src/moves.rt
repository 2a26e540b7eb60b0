ghost use Rattle.std.specs.Prelude.{◌≡◌, true};
ghost use Rattle.bits.specs.Bits.{related, FirstOf};

use crate::flags::Flags;
use bits::Relation;

/// Which items may come next at each place of the types in a table.
#[derive(Clone, Copy)]
pub struct Moves {
    /// The first items of each row, and behind those of all rows the items that follow each item.
    // Both lie in one relation, as the number of a place is its row: what may come next is looked up alike at a start and behind an item.
    pub next: Relation<8192>,
    /// Behind which rows all that is left has a forest.
    pub live: Flags,
}

impl Moves {
    /// The first item from `from` on that may come next at a place. A place is a row, at the start of its type, or 512 more than an item, behind it.
    pub fn next_item(&self, place: usize, from: usize) -> Option<usize>
        ensures { FirstOf (λ n. related self.now.next.words place n ≡ true) from 512 result }
    {
        if place >= 1024 || from >= 512 {
            return None;
        }
        let item = self.next.items_from(place as u32, from as u32).next()?;
        Some(item as usize)
    }
}
