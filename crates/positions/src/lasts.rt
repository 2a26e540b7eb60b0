ghost use Rattle.std.specs.Prelude.{◌≡◌, ℕ, false};
ghost use Rattle.bits.specs.Bits.{bit};
ghost use Rattle.types.specs.Tables.{rows_of};
ghost use Rattle.positions.specs.Right.{Nulls, Lasts};

use crate::ends::{add_ends, turn};
use crate::flags::Flags;
use bits::Relation;
use types::TypeRows;

/// Adds the last items of each row to an empty relation, which is filled where it lies.
pub(crate) fn add_lasts(types: &TypeRows, nullable: &Flags, lasts: &mut Relation<4096>)
    requires nulls { Nulls (rows_of types.now) nullable.now.marks }
    requires empty { (j : ℕ) → bit lasts.old.words j ≡ false }
    ensures { Lasts (rows_of types.now) lasts.new.words }
{
    let rows = types.as_slice();
    for (place, row) in rows.iter().enumerate() {
        add_ends(lasts, nullable, place as u32, turn(*row));
    }
}
