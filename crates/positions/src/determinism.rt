ghost use Rattle.std.specs.Prelude.{◌≡◌, ◌+◌, ◌<◌, length, slice_index};
ghost use Rattle.bits.specs.Items.{items_left};
ghost use Rattle.types.specs.Parts.{Root};
ghost use Rattle.types.specs.Determinism.{Deterministic};
ghost use Rattle.types.specs.Tables.{rows_of, Exactly, Lowest};
ghost use Rattle.positions.specs.Built.{Built, types_of, top};
ghost use Rattle.positions.specs.Filling.{Alone, Clear, ClearItems};

use crate::tables::Positions;
use bits::{Items, Relation};
use types::{TypeRows, overlap};

/// Whether an item overlaps none of these but itself.
fn stands_alone(types: &TypeRows, item: u32, mut others: Items<'_>) -> bool
    ensures { Exactly result (Alone (rows_of types.now) item (items_left others.entry)) }
{
    let row = types.row(item as usize);
    others.all(|other| other == item || !overlap(row, types.row(other as usize)))
}

/// Whether no two different items that may come next at a place overlap.
fn is_clear(types: &TypeRows, next: &Relation<8192>, place: u32) -> bool
    ensures { Exactly result (Clear (rows_of types.now) next.now.words place) }
{
    next.items(place).all(|item| stands_alone(
        types,
        item,
        next.items_from(place, item.saturating_add(1)),
    ))
}

/// Whether no two different items that follow an item of the root overlap.
fn items_clear(types: &TypeRows, tops: &[u32], next: &Relation<8192>, root: u32) -> bool
    requires { length tops.now ≡ 512 }
    ensures { Exactly result (ClearItems (rows_of types.now) tops.now next.now.words root) }
{
    tops[..types.count as usize].iter().enumerate().all(|(item, top)| *top != root
        || is_clear(types, next, 512 + item as u32))
}

impl Positions {
    /// The root that a row is within; past the end of the array 0.
    // Those that ask give rows below 512, so an `Option` would hand them a case that never comes.
    pub fn top(&self, row: u32) -> u32
        ensures { result ≡ top self.now row }
    {
        self.tops.get(row as usize).copied().unwrap_or(0)
    }

    /// Whether a root is one-way: no two different overlapping items may come next at one place of it.
    pub fn is_one_way(&self, root: u32) -> bool
        ensures { Built self.now → Root (types_of self.now) root → Exactly result (Deterministic (types_of self.now) root) }
    {
        root < self.types.count
            && is_clear(&self.types, &self.whole.next, root)
            && items_clear(&self.types, &self.tops, &self.whole.next, root)
    }

    /// The lowest root that is not one-way.
    pub fn first_ambiguous(&self) -> Option<u32>
        ensures { Built self.now → Lowest result (types_of self.now) (λ n. Root (types_of self.now) n → Deterministic (types_of self.now) n) }
    {
        (0..self.types.count).find(|row| !self.is_unambiguous(*row))
    }

    /// Whether a row is no root, or one that is one-way.
    fn is_unambiguous(&self, row: u32) -> bool
        ensures { Built self.now → row < length (types_of self.now) → Exactly result (Root (types_of self.now) row → Deterministic (types_of self.now) row) }
    {
        self.top(row) != row || self.is_one_way(row)
    }
}
