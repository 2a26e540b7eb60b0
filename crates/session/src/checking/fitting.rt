ghost use Rattle.std.specs.Prelude.{◌≡◌, ◌<◌, length};
ghost use Rattle.types.specs.Parts.{Root};
ghost use Rattle.types.specs.Places.{Checked};
ghost use Rattle.session.specs.Progress.{table_of, DeclaredRoot, Fits};

use crate::checking::spot::Spot;
use crate::counts::Counts;
use forest::Reason;
use positions::Positions;
use rows::TypeRow;
use subtyping::is_subtype;
use types::TypeRows;
use typing::TypeFault;

/// Refuses a row that does not fit a declared root.
// Never inlined: its tables take some 230 KB of stack, which the functions that type rows, calling themselves, would take each time.
#[inline(never)]
pub(crate) fn fit(
    types: &[TypeRow],
    counts: &Counts,
    spot: Spot,
    row: u32,
    root: u32,
) -> Result<(), TypeFault>
    requires long { length types.now ≡ 512 }
    requires checked { Checked (table_of types.now counts.now) counts.now.declared }
    requires there { row < counts.now.all }
    requires root { DeclaredRoot counts.now.declared (table_of types.now counts.now) root }
    ensures { Fits spot (table_of types.now counts.now) row root result }
{
    let mut rows = [TypeRow::EmptyChoice; 512];
    rows.copy_from_slice(types);
    let table = TypeRows {
        rows,
        count: counts.all,
    };
    if is_subtype(&Positions::of(table), row, root) {
        Ok(())
    } else {
        Err(spot.fault(Reason::Unfit))
    }
}
