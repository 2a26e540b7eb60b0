ghost use Rattle.std.specs.Prelude.{◌≡◌, length};
ghost use Rattle.session.specs.Progress.{Makes, Grows};

use crate::checking::spot::Spot;
use crate::counts::Counts;
use forest::Reason;
use rows::{TYPE_ROWS, TypeRow};
use typing::TypeFault;

/// One type row more, behind the others.
pub(crate) fn push_row(
    types: &mut [TypeRow],
    counts: &mut Counts,
    spot: Spot,
    row: TypeRow,
) -> Result<u32, TypeFault>
    requires { length types.old ≡ 512 }
    ensures makes { Makes spot row types.old counts.old result types.new counts.new }
    ensures grows { Grows types.old counts.old types.new counts.new }
{
    let place = counts.all;
    if place >= TYPE_ROWS {
        return Err(spot.fault(Reason::TypesFull));
    }
    types[place as usize] = row;
    *counts = Counts {
        declared: counts.declared,
        all: place + 1,
    };
    Ok(place)
}
