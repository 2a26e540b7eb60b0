ghost use Rattle.std.specs.Prelude.{◌≡◌, length};
ghost use Rattle.session.specs.Progress.{Walkable, Copies, Grows};

use crate::checking::making::push_row;
use crate::checking::spot::Spot;
use crate::counts::Counts;
use rows::TypeRow;
use typing::TypeFault;

/// A copy of a type: a row for each of its rows, parts before what they are parts of, the left one first. Contents are kept.
pub(crate) fn copy_type(
    types: &mut [TypeRow],
    counts: &mut Counts,
    spot: Spot,
    row: u32,
) -> Result<u32, TypeFault>
    requires long { length types.old ≡ 512 }
    requires walkable { Walkable types.old counts.old row }
    ensures copies { Copies spot row types.old counts.old result types.new counts.new }
    ensures grows { Grows types.old counts.old types.new counts.new }
{
    match types[row as usize] {
        TypeRow::Sequence { first, second } => {
            let left = copy_type(types, counts, spot, first)?;
            let right = copy_type(types, counts, spot, second)?;
            let copy = TypeRow::Sequence {
                first: left,
                second: right,
            };
            push_row(types, counts, spot, copy)
        }
        TypeRow::Choice { first, second } => {
            let left = copy_type(types, counts, spot, first)?;
            let right = copy_type(types, counts, spot, second)?;
            let copy = TypeRow::Choice {
                first: left,
                second: right,
            };
            push_row(types, counts, spot, copy)
        }
        TypeRow::Repetition { part } => {
            let inner = copy_type(types, counts, spot, part)?;
            push_row(types, counts, spot, TypeRow::Repetition { part: inner })
        }
        single => push_row(types, counts, spot, single),
    }
}
