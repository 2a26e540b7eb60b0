ghost use Rattle.std.specs.Prelude.{◌≡◌, ◌≤◌, length};
ghost use Rattle.types.specs.Tables.{rows_of};
ghost use Rattle.positions.specs.Life.{left_gift, Alive, LiveBelow};

use crate::flags::Flags;
use rows::TypeRow;
use types::TypeRows;

/// What a row with this flag gives to its left part: in a sequence, what stands behind that part must have a forest too.
fn for_left(row: TypeRow, own: bool, alive: &Flags) -> bool
    ensures { result ≡ left_gift alive.now.marks row own }
{
    match row {
        TypeRow::Sequence { second, .. } => own && alive.has(second),
        _ => own,
    }
}

/// The rows behind which all that is left has a forest, within the rows that nothing below `end` owns.
/// Rows from the highest down give their parts what they have.
pub(crate) fn live_rows(types: &TypeRows, alive: &Flags, end: u32) -> Flags
    requires { «end» ≤ length (rows_of types.now) }
    ensures { Alive (rows_of types.now) alive.now.marks → LiveBelow (rows_of types.now) «end» result.marks }
{
    let mut live = Flags::all(true);
    let rows = &types.as_slice()[..end as usize];
    for (place, row) in rows.iter().enumerate().rev() {
        let own = live.has(place as u32);
        let left = for_left(*row, own, alive);
        live.give(*row, left, own);
    }
    live
}
