ghost use Rattle.std.specs.Prelude.{◌≡◌, ℕ, true, MatchOption};
ghost use Rattle.forest.specs.Forests.{forest, lawful};
ghost use Rattle.types.specs.Parts.{row as row_at, content as row_content};
ghost use Rattle.positions.specs.Built.{types_of};
ghost use Rattle.validation.specs.Walking.{Suits};

use crate::matching::suits;
use forest::{Kind, Store};
use positions::Positions;
use types::content;

/// What a walk along trees reads: the trees, and the places of types.
#[derive(Drop)]
pub(crate) struct Walk<'a, S: Store> {
    pub(crate) store: &'a S,
    pub(crate) positions: &'a Positions,
    ghost legal: { lawful (forest (S.Store.means store.now).trees) ≡ true },
}

impl<'a, S: Store> Walk<'a, S> {
    /// An item row that may come next at a place and suits a kind and a tag.
    pub(crate) fn suitable_item(&self, place: u32, kind: Kind, tag: u16) -> Option<u32>
        ensures { MatchOption result ((m : ℕ) → Suits self.now.positions.now place kind tag m → ⊥) (Suits self.now.positions.now place kind tag) }
    {
        let types = &self.positions.types;
        self.positions
            .whole
            .next
            .items(place)
            .find(|item| suits(types.row(*item as usize), kind, tag))
    }

    /// The content of a row.
    pub(crate) fn content_of(&self, row: u32) -> Option<u32>
        ensures { result ≡ row_content (row_at (types_of self.now.positions.now) row) }
    {
        content(self.positions.types.row(row as usize))
    }
}
