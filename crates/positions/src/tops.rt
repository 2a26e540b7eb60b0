ghost use Rattle.std.specs.Prelude.{◌≡◌, ℕ, ◌<◌, length, slice_index};
ghost use Rattle.types.specs.Parts.{Root, Within};
ghost use Rattle.types.specs.Tables.{rows_of};

use crate::giving::give;
use std::array;
use types::TypeRows;

/// The root that each row is within: rows from the highest down give their parts their own top.
pub(crate) fn tops_of(types: &TypeRows) -> [u32; 512]
    ensures roots { (r : ℕ) → r < length (rows_of types.now) → Root (rows_of types.now) (slice_index result r) }
    ensures within { (r : ℕ) → r < length (rows_of types.now) → Within (rows_of types.now) (slice_index result r) r }
{
    let mut tops = array::from_fn(|row| row as u32);
    for (place, row) in types.as_slice().iter().enumerate().rev() {
        let top = tops[place];
        give(*row, top, top, &mut tops);
    }
    tops
}
