ghost use Rattle.std.specs.Prelude.{◌≡◌, [], ◌∷◌, length, slice_get, Some, OnOk};
ghost use Rattle.typing.specs.Checking.{all_typed};
ghost use Rattle.session.specs.Progress.{table_of, DeclaredRoot};
ghost use Rattle.session.specs.Tables.{program_rows};
ghost use Rattle.session.specs.Typings.{Standing, Stays, Gave, now};
ghost use Rattle.session.specs.FunctionsTyped.{FunctionsGave};

use crate::checking::expressions::type_under;
use crate::checking::fitting::fit;
use crate::checking::scope::{Scope, State};
use crate::checking::spot::Spot;
use crate::counts::Counts;
use crate::program::Program;
use rows::{Function, Query, TypeRow};
use typing::TypeFault;

/// Types the body of a function by its parameter; it has to fit the function's result. A function without a body is passed over.
fn type_function(
    program: &Program,
    types: &mut [TypeRow],
    counts: &mut Counts,
    state: &mut State,
    number: u32,
    function: Function,
) -> Result<(), TypeFault>
    requires ready { Standing (program_rows program.now) types.old counts.old state.old }
    requires outside { state.old.variables.items ≡ [] }
    requires there { slice_get (program_rows program.now).functions number ≡ Some function }
    ensures types { FunctionsGave (program_rows program.now) number (function ∷ []) (now types.old counts.old state.old) result (now types.new counts.new state.new) }
    ensures ready { OnOk result (Standing (program_rows program.now) types.new counts.new state.new) }
    ensures stays { Stays types.old counts.old state.old types.new counts.new state.new }
{
    let Some(body) = function.body else {
        return Ok(());
    };
    let scope = Scope {
        program,
        function: Some(number),
    };
    let row = type_under(&scope, types, counts, state, function.parameter, body)?;
    let spot = Spot {
        at: body,
        function: Some(number),
    };
    fit(types, counts, spot, row, function.result)
}

/// Types the functions in order.
fn type_functions(
    program: &Program,
    types: &mut [TypeRow],
    counts: &mut Counts,
    state: &mut State,
) -> Result<(), TypeFault>
    requires ready { Standing (program_rows program.now) types.old counts.old state.old }
    requires outside { state.old.variables.items ≡ [] }
    ensures types { FunctionsGave (program_rows program.now) 0 (program_rows program.now).functions (now types.old counts.old state.old) result (now types.new counts.new state.new) }
    ensures ready { OnOk result (Standing (program_rows program.now) types.new counts.new state.new) }
    ensures stays { Stays types.old counts.old state.old types.new counts.new state.new }
{
    let functions = program.functions.rows.as_slice();
    for (number, function) in functions.iter().enumerate() {
        type_function(program, types, counts, state, number as u32, *function)?;
    }
    Ok(())
}

/// Types all functions, and then the query.
pub(crate) fn type_all(
    program: &Program,
    types: &mut [TypeRow],
    counts: &mut Counts,
    state: &mut State,
    query: Query,
) -> Result<u32, TypeFault>
    requires ready { Standing (program_rows program.now) types.old counts.old state.old }
    requires outside { state.old.variables.items ≡ [] }
    requires query { (program_rows program.now).query ≡ Some query }
    requires input { DeclaredRoot counts.old.declared (table_of types.old counts.old) query.input }
    ensures types { Gave (all_typed (program_rows program.now) query (now types.old counts.old state.old)) result (now types.new counts.new state.new) }
    ensures stays { Stays types.old counts.old state.old types.new counts.new state.new }
{
    type_functions(program, types, counts, state)?;
    let scope = Scope {
        program,
        function: None,
    };
    type_under(&scope, types, counts, state, query.input, query.row)
}
