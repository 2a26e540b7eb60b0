ghost use Rattle.std.specs.Prelude.{◌≡◌, ℕ, ◌+◌, ◌*◌, ◌<◌, ◌≤◌, true};
ghost use Rattle.rows.specs.TypeRows.{owns};
ghost use Rattle.positions.specs.Filling.{ends_by, turned, Grown};

use crate::flags::Flags;
use bits::Relation;
use rows::TypeRow;

/// The row read from its end.
// Only a sequence has an order, so the last items are the first items of turned rows, and one function adds both.
pub(crate) fn turn(row: TypeRow) -> TypeRow
    ensures { result ≡ turned row }
{
    match row {
        TypeRow::Sequence { first, second } => TypeRow::Sequence {
            first: second,
            second: first,
        },
        _ => row,
    }
}

/// Adds the items that may come first in a row to its own, where those of its parts are there.
pub(crate) fn add_ends<const WORDS: usize>(
    items: &mut Relation<WORDS>,
    nullable: &Flags,
    place: u32,
    row: TypeRow,
)
    requires few { place < 512 }
    requires space { place * 8 + 8 ≤ WORDS }
    requires lower { (p : ℕ) → owns row p ≡ true → p < place }
    ensures { Grown items.old.words items.new.words place (ends_by nullable.now.marks items.old.words place row) }
{
    match row {
        TypeRow::EmptyChoice | TypeRow::EmptySequence => {}
        TypeRow::Sequence { first, second } => {
            items.unite(place, first);
            if nullable.has(first) {
                items.unite(place, second);
            }
        }
        TypeRow::Choice { first, second } => {
            items.unite(place, first);
            items.unite(place, second);
        }
        TypeRow::Repetition { part } => items.unite(place, part),
        _ => {
            let _ = items.insert(place, place);
        }
    }
}
