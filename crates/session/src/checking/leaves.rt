ghost use Rattle.std.specs.Prelude.{length};
ghost use Rattle.rows.specs.declared.expression.Expression.TheVariants.{Error};
ghost use Rattle.rows.specs.declared.type_row.TypeRow.TheVariants.{EmptyChoice as EmptyChoiceType};
ghost use Rattle.rows.specs.Programs.{ProgramRows};
ghost use Rattle.typing.specs.Outcomes.{then};
ghost use Rattle.typing.specs.Typing.{made, came_to_error, variable};
ghost use Rattle.std.specs.Prelude.{◌≡◌, slice_get};
ghost use Rattle.session.specs.Progress.{spot_of};
ghost use Rattle.session.specs.Typings.{Standing, Stays, Gave, now};

use crate::checking::copying::copy_type;
use crate::checking::making::push_row;
use crate::checking::scope::State;
use crate::checking::spot::Spot;
use crate::counts::Counts;
use forest::Reason;
use rows::TypeRow;
use typing::TypeFault;

/// An error row has no forest, and is told of.
pub(crate) fn type_error(
    types: &mut [TypeRow],
    counts: &mut Counts,
    state: &mut State,
    spot: Spot,
) -> Result<u32, TypeFault>
    requires { length types.old ≡ 512 }
    ensures types { Gave (then (made (spot_of spot) EmptyChoiceType (now types.old counts.old state.old)) came_to_error) result (now types.new counts.new state.new) }
    ensures stays { Stays types.old counts.old state.old types.new counts.new state.new }
{
    let row = push_row(types, counts, spot, TypeRow::EmptyChoice)?;
    state.error = true;
    Ok(row)
}

/// A variable has a copy of its type.
pub(crate) fn type_variable(
    types: &mut [TypeRow],
    counts: &mut Counts,
    state: &State,
    spot: Spot,
    number: u32,
) -> Result<u32, TypeFault>
    requires { (g : ProgramRows) × Standing g types.old counts.old state.now }
    ensures types { Gave (variable (spot_of spot) (slice_get state.now.variables.items number) (now types.old counts.old state.now)) result (now types.new counts.new state.now) }
    ensures stays { Stays types.old counts.old state.now types.new counts.new state.now }
{
    match state.variable(number) {
        None => Err(spot.fault(Reason::Unbound)),
        Some(row) => copy_type(types, counts, spot, row),
    }
}
