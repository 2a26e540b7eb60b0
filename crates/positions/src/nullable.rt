ghost use Rattle.std.specs.Prelude.{◌≡◌};
ghost use Rattle.types.specs.Tables.{rows_of};
ghost use Rattle.positions.specs.Filling.{null_by};
ghost use Rattle.positions.specs.Right.{Nulls};

use crate::flags::Flags;
use rows::TypeRow;
use types::TypeRows;

/// Whether a row may be nothing, its parts being as marked.
fn may_be_nothing(row: TypeRow, nullable: &Flags) -> bool
    ensures { result ≡ null_by nullable.now.marks row }
{
    match row {
        TypeRow::EmptySequence | TypeRow::Repetition { .. } => true,
        TypeRow::Sequence { first, second } => nullable.has(first) && nullable.has(second),
        TypeRow::Choice { first, second } => nullable.has(first) || nullable.has(second),
        _ => false,
    }
}

/// The rows that may be nothing.
pub(crate) fn nullable_rows(types: &TypeRows) -> Flags
    ensures { Nulls (rows_of types.now) result.marks }
{
    let mut nullable = Flags::all(false);
    let rows = types.as_slice();
    for (place, row) in rows.iter().enumerate() {
        let marked = may_be_nothing(*row, &nullable);
        nullable.set(place as u32, marked);
    }
    nullable
}
