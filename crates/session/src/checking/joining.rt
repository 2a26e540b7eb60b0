ghost use Rattle.std.specs.Prelude.{◌≡◌, length};
ghost use Rattle.session.specs.Progress.{Grows};
ghost use Rattle.session.specs.Typings.{Joins, Chooses};

use crate::checking::making::push_row;
use crate::checking::spot::Spot;
use crate::counts::Counts;
use rows::TypeRow;
use typing::TypeFault;

/// The choices of the branches, from the left.
pub(crate) fn join(
    types: &mut [TypeRow],
    counts: &mut Counts,
    spot: Spot,
    branches: &[u32],
) -> Result<u32, TypeFault>
    requires { length types.old ≡ 512 }
    ensures joined { Joins spot branches.now types.old counts.old result types.new counts.new }
    ensures grows { Grows types.old counts.old types.new counts.new }
{
    match branches {
        [] => push_row(types, counts, spot, TypeRow::EmptyChoice),
        [first, rest @ ..] => choose(types, counts, spot, *first, rest),
    }
}

fn choose(
    types: &mut [TypeRow],
    counts: &mut Counts,
    spot: Spot,
    first: u32,
    rest: &[u32],
) -> Result<u32, TypeFault>
    requires { length types.old ≡ 512 }
    ensures chosen { Chooses spot first rest.now types.old counts.old result types.new counts.new }
    ensures grows { Grows types.old counts.old types.new counts.new }
{
    match rest {
        [] => Ok(first),
        [second, later @ ..] => {
            let choice = TypeRow::Choice {
                first,
                second: *second,
            };
            let choice = push_row(types, counts, spot, choice)?;
            choose(types, counts, spot, choice, later)
        }
    }
}
