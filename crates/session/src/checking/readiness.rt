ghost use Rattle.std.specs.Prelude.{◌≡◌, ℕ, length, Some, None, MatchResult};
ghost use Rattle.rows.specs.declared.expression.Expression.TheVariants.{As};
ghost use Rattle.types.specs.Parts.{Root};
ghost use Rattle.types.specs.Tables.{rows_of, Exactly};
ghost use Rattle.typing.specs.Faults.{type_fault};
ghost use Rattle.typing.specs.Checking.{HasBody, FunctionRooted, TargetRooted, Ready, Unready};
ghost use Rattle.session.specs.Readiness.{Lowest};
ghost use Rattle.session.specs.Tables.{program_rows};

use crate::program::Program;
use forest::Reason;
use positions::Positions;
use rows::{Expression, Function, Query};
use types::TypeRows;
use typing::TypeFault;

/// The query, if the program can be typed: there is a query and every function has a body; all that is named as a type is a root; and
/// every root is one-way. Otherwise the first of these that fails refuses the check.
pub(crate) fn ready(program: &Program, types: TypeRows) -> Result<Query, TypeFault>
    ensures { MatchResult result (Ready (rows_of types) (program_rows program.now)) (Unready (rows_of types) (program_rows program.now)) }
{
    let Some(query) = program.query else {
        return Err(refusal(Reason::NotSet, 0));
    };
    if let Some(function) = first_bodiless(program) {
        return Err(refusal(Reason::NotSet, function));
    }
    if let Some(row) = types.first_unrooted() {
        return Err(refusal(Reason::TypeMissing, row));
    }
    if let Some(function) = first_unrooted_function(program, &types) {
        return Err(refusal(Reason::TypeMissing, function));
    }
    if !types.is_root(query.input) {
        return Err(refusal(Reason::TypeMissing, 0));
    }
    if let Some(row) = first_unrooted_target(program, &types) {
        return Err(refusal(Reason::TypeMissing, row));
    }
    match Positions::of(types).first_ambiguous() {
        Some(row) => Err(refusal(Reason::Ambiguous, row)),
        None => Ok(query),
    }
}

/// A refusal before anything is typed.
fn refusal(reason: Reason, row: u32) -> TypeFault
    ensures { result ≡ type_fault reason row None }
{
    TypeFault::new(reason, row, None)
}

/// The lowest function that has no body.
fn first_bodiless(program: &Program) -> Option<u32>
    ensures { Lowest result (length (program_rows program.now).functions) (HasBody (program_rows program.now)) }
{
    let functions = program.functions.rows.as_slice();
    let function = functions.iter().position(|function| !has_body(*function))?;
    Some(function as u32)
}

/// The lowest function with a type that is no root.
fn first_unrooted_function(program: &Program, types: &TypeRows) -> Option<u32>
    ensures { Lowest result (length (program_rows program.now).functions) (FunctionRooted (rows_of types.now) (program_rows program.now)) }
{
    let functions = program.functions.rows.as_slice();
    let function = functions
        .iter()
        .position(|function| !is_rooted(types, *function))?;
    Some(function as u32)
}

/// The lowest "as" whose type is no root.
fn first_unrooted_target(program: &Program, types: &TypeRows) -> Option<u32>
    ensures { Lowest result (length (program_rows program.now).expressions) (TargetRooted (rows_of types.now) (program_rows program.now)) }
{
    let expressions = program.expressions.as_slice();
    let row = expressions
        .iter()
        .position(|row| !has_rooted_target(types, *row))?;
    Some(row as u32)
}

fn has_body(function: Function) -> bool
    ensures { Exactly result ((b : ℕ) × (function.body ≡ Some b)) }
{
    function.body.is_some()
}

/// Whether both types of a function are roots.
fn is_rooted(types: &TypeRows, function: Function) -> bool
    ensures { Exactly result (Root (rows_of types.now) function.parameter × Root (rows_of types.now) function.result) }
{
    types.is_root(function.parameter) && types.is_root(function.result)
}

/// Whether a row is no "as", or one whose type is a root.
fn has_rooted_target(types: &TypeRows, row: Expression) -> bool
    ensures { Exactly result ((a : ℕ) → (t : ℕ) → row ≡ As a t → Root (rows_of types.now) t) }
{
    match row {
        Expression::As { target, .. } => types.is_root(target),
        _ => true,
    }
}
