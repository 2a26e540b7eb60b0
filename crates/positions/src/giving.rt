ghost use Rattle.std.specs.Prelude.{◌≡◌, slice_set};
ghost use Rattle.positions.specs.Life.{given};

use rows::TypeRow;

/// Writes a value, if there is such a place.
pub(crate) fn put<T: Copy>(table: &mut [T], place: u32, value: T)
    ensures { table.new ≡ slice_set table.old place value }
{
    let at = place as usize;
    // Written through `get_mut`, neither way out was proved by the search alone; this form is.
    if at < table.len() {
        table[at] = value;
    }
}

/// Gives the left part of a sequence the first value, and every other part of the row the second.
pub(crate) fn give<T: Copy>(row: TypeRow, left: T, other: T, table: &mut [T])
    ensures { table.new ≡ given row left other table.old }
{
    match row {
        TypeRow::Sequence { first, second } => {
            put(table, first, left);
            put(table, second, other);
        }
        TypeRow::Choice { first, second } => {
            put(table, first, other);
            put(table, second, other);
        }
        TypeRow::Repetition { part } => put(table, part, other),
        _ => {}
    }
}
