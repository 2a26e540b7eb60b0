ghost use Rattle.std.specs.Prelude.{◌≡◌, length};
ghost use Rattle.types.specs.Tables.{rows_of};
ghost use Rattle.positions.specs.Life.{lives_by, Pass, Alive};

use crate::flags::Flags;
use rows::TypeRow;
use types::TypeRows;

/// Whether a row has a forest, the rows that it names being as marked.
fn has_forest(row: TypeRow, alive: &Flags) -> bool
    ensures { result ≡ lives_by alive.now.marks row }
{
    match row {
        TypeRow::EmptyChoice => false,
        TypeRow::Element { content, .. } | TypeRow::AnyElement { content } => alive.has(content),
        TypeRow::Sequence { first, second } => alive.has(first) && alive.has(second),
        TypeRow::Choice { first, second } => alive.has(first) || alive.has(second),
        _ => true,
    }
}

/// Marks each row that has a forest by what is marked, and says whether it marked any.
fn mark_more(types: &TypeRows, alive: &mut Flags) -> bool
    ensures { Pass (rows_of types.now) alive.old.marks alive.new.marks (length (rows_of types.now)) result }
{
    let mut changed = false;
    let rows = types.as_slice();
    for (place, row) in rows.iter().enumerate() {
        if !alive.has(place as u32) && has_forest(*row, alive) {
            alive.set(place as u32, true);
            changed = true;
        }
    }
    changed
}

/// The rows that have a forest, marked by passes until one marks nothing.
pub(crate) fn alive_rows(types: &TypeRows) -> Flags
    ensures { Alive (rows_of types.now) result.marks }
{
    let mut alive = Flags::all(false);
    'round: while mark_more(types, &mut alive) {}
    alive
}
