ghost use Rattle.std.specs.Prelude.{◌≡◌, ◌+◌, ◌<◌, ◌≤◌, true, [], ◌∷◌, ◌++◌, length, take, drop};
ghost use Rattle.rows.specs.declared.expression.Expression.TheVariants.{Element, Children, Call, If, Let, For, Match};
ghost use Rattle.typing.specs.Outcomes.{ending_of};
ghost use Rattle.typing.specs.Typing.{typed, branches as branched};
ghost use Rattle.session.specs.Rules.{bodies_below, patterns_fit};
ghost use Rattle.session.specs.Tables.{program_rows};
ghost use Rattle.session.specs.Operators.{operation};
ghost use Rattle.session.specs.Progress.{spot_of, table_of, DeclaredRoot, Walks};
ghost use Rattle.session.specs.Typings.{Standing, Room, Stays, Typing, Gave, Adds, now, spot_at, kind_typed, part_then, part_fitted, item_typed};

use crate::checking::copying::copy_type;
use crate::checking::fitting::fit;
use crate::checking::joining::join;
use crate::checking::kinds::{Taking, is_boolean, is_item, judge, narrowed};
use crate::checking::leaves::{type_error, type_variable};
use crate::checking::making::push_row;
use crate::checking::operator::Operator;
use crate::checking::scope::{Scope, State};
use crate::checking::spot::Spot;
use crate::counts::Counts;
use arrayvec::ArrayVec;
use forest::Reason;
use rows::{Arm, Expression, Function, TypeRow};
use types::content;
use typing::TypeFault;

/// The type of an expression row, by the types of the variables.
#[cycle(typing)]
pub(crate) fn type_expression(
    scope: &Scope<'_>,
    types: &mut [TypeRow],
    counts: &mut Counts,
    state: &mut State,
    at: u32,
) -> Result<u32, TypeFault>
    requires ready { Standing (program_rows scope.now.program.now) types.old counts.old state.old }
    requires room { Room (program_rows scope.now.program.now) state.old at }
    ensures types { Typing (program_rows scope.now.program.now) scope.now.function state.old.variables.items at (now types.old counts.old state.old) result (now types.new counts.new state.new) }
    ensures stays { Stays types.old counts.old state.old types.new counts.new state.new }
{
    let spot = Spot {
        at,
        function: scope.function,
    };
    match scope.expression(at) {
        Expression::Error => type_error(types, counts, state, spot),
        Expression::Integer { .. } => push_row(types, counts, spot, TypeRow::Integer),
        Expression::Boolean { .. } => push_row(types, counts, spot, TypeRow::Boolean),
        Expression::String { .. } => push_row(types, counts, spot, TypeRow::String),
        Expression::Empty => push_row(types, counts, spot, TypeRow::EmptySequence),
        Expression::Variable { number } => type_variable(types, counts, state, spot, number),
        Expression::Element { tag, content } => type_element(
            scope, types, counts, state, at, tag, content,
        ),
        Expression::IsEmpty { part } => type_scalar(
            scope,
            types,
            counts,
            state,
            at,
            part,
            TypeRow::Boolean,
        ),
        Expression::Count { part } => type_scalar(
            scope,
            types,
            counts,
            state,
            at,
            part,
            TypeRow::Integer,
        ),
        Expression::Children { part } => type_children(scope, types, counts, state, at, part),
        Expression::As { part, target } => type_fitted(
            scope, types, counts, state, at, part, target, target,
        ),
        Expression::Call { function, argument } => type_call(
            scope, types, counts, state, at, function, argument,
        ),
        Expression::Sequence { first, second } => {
            type_two(
                scope,
                types,
                counts,
                state,
                at,
                Operator::Sequence,
                first,
                second,
            )
        }
        Expression::Add { left, right } => type_two(
            scope,
            types,
            counts,
            state,
            at,
            Operator::Add,
            left,
            right,
        ),
        Expression::Equal { left, right } => type_two(
            scope,
            types,
            counts,
            state,
            at,
            Operator::Equal,
            left,
            right,
        ),
        Expression::If {
            condition,
            then,
            otherwise,
        } => type_if(scope, types, counts, state, at, condition, then, otherwise),
        Expression::Let { value, body } => type_let(scope, types, counts, state, at, value, body),
        Expression::For { items, body } => type_for(scope, types, counts, state, at, items, body),
        Expression::Match {
            subject,
            from,
            length,
            otherwise,
        } => type_match(
            scope, types, counts, state, at, subject, from, length, otherwise,
        ),
    }
}

/// An element of its content.
#[cycle(typing)]
fn type_element(
    scope: &Scope<'_>,
    types: &mut [TypeRow],
    counts: &mut Counts,
    state: &mut State,
    at: u32,
    tag: u32,
    content: u32,
) -> Result<u32, TypeFault>
    requires ready { Standing (program_rows scope.now.program.now) types.old counts.old state.old }
    requires room { Room (program_rows scope.now.program.now) state.old at }
    requires content { content < at }
    ensures types { Gave (kind_typed (program_rows scope.now.program.now) scope.now.function state.old.variables.items at (Element tag content) (now types.old counts.old state.old)) result (now types.new counts.new state.new) }
    ensures stays { Stays types.old counts.old state.old types.new counts.new state.new }
{
    let spot = Spot {
        at,
        function: scope.function,
    };
    let inner = type_expression(scope, types, counts, state, content)?;
    let made = TypeRow::Element {
        tag,
        content: inner,
    };
    push_row(types, counts, spot, made)
}

/// A row that holds nothing of the type of its part.
#[cycle(typing)]
fn type_scalar(
    scope: &Scope<'_>,
    types: &mut [TypeRow],
    counts: &mut Counts,
    state: &mut State,
    at: u32,
    part: u32,
    made: TypeRow,
) -> Result<u32, TypeFault>
    requires ready { Standing (program_rows scope.now.program.now) types.old counts.old state.old }
    requires room { Room (program_rows scope.now.program.now) state.old at }
    requires part { part < at }
    ensures types { Gave (part_then (program_rows scope.now.program.now) scope.now.function state.old.variables.items at part made (now types.old counts.old state.old)) result (now types.new counts.new state.new) }
    ensures stays { Stays types.old counts.old state.old types.new counts.new state.new }
{
    let spot = Spot {
        at,
        function: scope.function,
    };
    type_expression(scope, types, counts, state, part)?;
    push_row(types, counts, spot, made)
}

/// The content of an element.
#[cycle(typing)]
fn type_children(
    scope: &Scope<'_>,
    types: &mut [TypeRow],
    counts: &mut Counts,
    state: &mut State,
    at: u32,
    part: u32,
) -> Result<u32, TypeFault>
    requires ready { Standing (program_rows scope.now.program.now) types.old counts.old state.old }
    requires room { Room (program_rows scope.now.program.now) state.old at }
    requires part { part < at }
    ensures types { Gave (kind_typed (program_rows scope.now.program.now) scope.now.function state.old.variables.items at (Children part) (now types.old counts.old state.old)) result (now types.new counts.new state.new) }
    ensures stays { Stays types.old counts.old state.old types.new counts.new state.new }
{
    let spot = Spot {
        at,
        function: scope.function,
    };
    let element = type_expression(scope, types, counts, state, part)?;
    match content(types[element as usize]) {
        None => Err(spot.fault(Reason::WrongKind)),
        Some(inner) => copy_type(types, counts, spot, inner),
    }
}

/// A part has to fit a root; the type is a copy of another.
#[cycle(typing)]
fn type_fitted(
    scope: &Scope<'_>,
    types: &mut [TypeRow],
    counts: &mut Counts,
    state: &mut State,
    at: u32,
    part: u32,
    root: u32,
    copied: u32,
) -> Result<u32, TypeFault>
    requires ready { Standing (program_rows scope.now.program.now) types.old counts.old state.old }
    requires room { Room (program_rows scope.now.program.now) state.old at }
    requires part { part < at }
    requires root { DeclaredRoot counts.old.declared (table_of types.old counts.old) root }
    requires copied { DeclaredRoot counts.old.declared (table_of types.old counts.old) copied }
    ensures types { Gave (part_fitted (program_rows scope.now.program.now) scope.now.function state.old.variables.items at part root copied (now types.old counts.old state.old)) result (now types.new counts.new state.new) }
    ensures stays { Stays types.old counts.old state.old types.new counts.new state.new }
{
    let spot = Spot {
        at,
        function: scope.function,
    };
    let given = type_expression(scope, types, counts, state, part)?;
    fit(types, counts, spot, given, root)?;
    copy_type(types, counts, spot, copied)
}

/// A call of a function that is there.
#[cycle(typing)]
fn type_call(
    scope: &Scope<'_>,
    types: &mut [TypeRow],
    counts: &mut Counts,
    state: &mut State,
    at: u32,
    function: u32,
    argument: u32,
) -> Result<u32, TypeFault>
    requires ready { Standing (program_rows scope.now.program.now) types.old counts.old state.old }
    requires room { Room (program_rows scope.now.program.now) state.old at }
    requires argument { argument < at }
    ensures types { Gave (kind_typed (program_rows scope.now.program.now) scope.now.function state.old.variables.items at (Call function argument) (now types.old counts.old state.old)) result (now types.new counts.new state.new) }
    ensures stays { Stays types.old counts.old state.old types.new counts.new state.new }
{
    let spot = Spot {
        at,
        function: scope.function,
    };
    match scope.callee(function) {
        None => Err(spot.fault(Reason::NoSuchFunction)),
        Some(callee) => {
            let Function {
                parameter,
                result,
                ..
            } = callee;
            type_fitted(scope, types, counts, state, at, argument, parameter, result)
        }
    }
}

/// Two parts, one after the other.
#[cycle(typing)]
fn type_two(
    scope: &Scope<'_>,
    types: &mut [TypeRow],
    counts: &mut Counts,
    state: &mut State,
    at: u32,
    operator: Operator,
    first: u32,
    second: u32,
) -> Result<u32, TypeFault>
    requires ready { Standing (program_rows scope.now.program.now) types.old counts.old state.old }
    requires room { Room (program_rows scope.now.program.now) state.old at }
    requires first { first < at }
    requires second { second < at }
    ensures types { Gave (operation operator (spot_at scope.now.function at) (typed (program_rows scope.now.program.now) scope.now.function) state.old.variables.items first second (now types.old counts.old state.old)) result (now types.new counts.new state.new) }
    ensures stays { Stays types.old counts.old state.old types.new counts.new state.new }
{
    let spot = Spot {
        at,
        function: scope.function,
    };
    let left = type_expression(scope, types, counts, state, first)?;
    if !operator.takes_first(types[left as usize]) {
        return Err(spot.fault(Reason::WrongKind));
    }
    let right = type_expression(scope, types, counts, state, second)?;
    if !operator.takes_both(types[left as usize], types[right as usize]) {
        return Err(spot.fault(Reason::WrongKind));
    }
    push_row(types, counts, spot, operator.row(left, right))
}

/// The choice of two branches, by a Boolean.
#[cycle(typing)]
fn type_if(
    scope: &Scope<'_>,
    types: &mut [TypeRow],
    counts: &mut Counts,
    state: &mut State,
    at: u32,
    condition: u32,
    then: u32,
    otherwise: u32,
) -> Result<u32, TypeFault>
    requires ready { Standing (program_rows scope.now.program.now) types.old counts.old state.old }
    requires room { Room (program_rows scope.now.program.now) state.old at }
    requires condition { condition < at }
    requires then { then < at }
    requires otherwise { otherwise < at }
    ensures types { Gave (kind_typed (program_rows scope.now.program.now) scope.now.function state.old.variables.items at (If condition then otherwise) (now types.old counts.old state.old)) result (now types.new counts.new state.new) }
    ensures stays { Stays types.old counts.old state.old types.new counts.new state.new }
{
    let spot = Spot {
        at,
        function: scope.function,
    };
    let test = type_expression(scope, types, counts, state, condition)?;
    if !is_boolean(types[test as usize]) {
        return Err(spot.fault(Reason::WrongKind));
    }
    let first = type_expression(scope, types, counts, state, then)?;
    let second = type_expression(scope, types, counts, state, otherwise)?;
    let choice = TypeRow::Choice { first, second };
    push_row(types, counts, spot, choice)
}

/// A body with a variable that has the type of a value.
#[cycle(typing)]
fn type_let(
    scope: &Scope<'_>,
    types: &mut [TypeRow],
    counts: &mut Counts,
    state: &mut State,
    at: u32,
    value: u32,
    body: u32,
) -> Result<u32, TypeFault>
    requires ready { Standing (program_rows scope.now.program.now) types.old counts.old state.old }
    requires room { Room (program_rows scope.now.program.now) state.old at }
    requires value { value < at }
    requires body { body < at }
    ensures types { Gave (kind_typed (program_rows scope.now.program.now) scope.now.function state.old.variables.items at (Let value body) (now types.old counts.old state.old)) result (now types.new counts.new state.new) }
    ensures stays { Stays types.old counts.old state.old types.new counts.new state.new }
{
    let variable = type_expression(scope, types, counts, state, value)?;
    type_under(scope, types, counts, state, variable, body)
}

/// A body for each item of a type.
#[cycle(typing)]
fn type_for(
    scope: &Scope<'_>,
    types: &mut [TypeRow],
    counts: &mut Counts,
    state: &mut State,
    at: u32,
    items: u32,
    body: u32,
) -> Result<u32, TypeFault>
    requires ready { Standing (program_rows scope.now.program.now) types.old counts.old state.old }
    requires room { Room (program_rows scope.now.program.now) state.old at }
    requires items { items < at }
    requires body { body < at }
    ensures types { Gave (kind_typed (program_rows scope.now.program.now) scope.now.function state.old.variables.items at (For items body) (now types.old counts.old state.old)) result (now types.new counts.new state.new) }
    ensures stays { Stays types.old counts.old state.old types.new counts.new state.new }
{
    let spot = Spot {
        at,
        function: scope.function,
    };
    let walked = type_expression(scope, types, counts, state, items)?;
    walk(scope, types, counts, state, spot, walked, body)
}

/// A body with one variable more.
#[cycle(typing)]
pub(crate) fn type_under(
    scope: &Scope<'_>,
    types: &mut [TypeRow],
    counts: &mut Counts,
    state: &mut State,
    variable: u32,
    body: u32,
) -> Result<u32, TypeFault>
    requires ready { Standing (program_rows scope.now.program.now) types.old counts.old state.old }
    requires variable { variable < counts.old.all }
    requires body { body < length (program_rows scope.now.program.now).expressions }
    requires room { length state.old.variables.items + body < 512 }
    ensures types { Typing (program_rows scope.now.program.now) scope.now.function (state.old.variables.items ++ (variable ∷ [])) body (now types.old counts.old state.old) result (now types.new counts.new state.new) }
    ensures stays { Stays types.old counts.old state.old types.new counts.new state.new }
{
    state.variables.push(variable);
    let row = type_expression(scope, types, counts, state, body);
    state.variables.pop();
    row
}

/// A walk over a type: each item gives way to the type of the body with that item as a variable; other rows are copied after their parts.
#[cycle(typing)]
fn walk(
    scope: &Scope<'_>,
    types: &mut [TypeRow],
    counts: &mut Counts,
    state: &mut State,
    spot: Spot,
    row: u32,
    body: u32,
) -> Result<u32, TypeFault>
    requires ready { Standing (program_rows scope.now.program.now) types.old counts.old state.old }
    requires row { row < counts.old.all }
    requires body { body < length (program_rows scope.now.program.now).expressions }
    requires room { length state.old.variables.items + body < 512 }
    ensures walks { Walks (item_typed (program_rows scope.now.program.now) scope.now.function state.old.variables.items body) (spot_of spot) row (now types.old counts.old state.old) (ending_of result (now types.new counts.new state.new)) }
    ensures stays { Stays types.old counts.old state.old types.new counts.new state.new }
{
    match types[row as usize] {
        TypeRow::EmptyChoice => push_row(types, counts, spot, TypeRow::EmptyChoice),
        TypeRow::EmptySequence => push_row(types, counts, spot, TypeRow::EmptySequence),
        TypeRow::Sequence { first, second } => {
            let left = walk(scope, types, counts, state, spot, first, body)?;
            let right = walk(scope, types, counts, state, spot, second, body)?;
            let walked = TypeRow::Sequence {
                first: left,
                second: right,
            };
            push_row(types, counts, spot, walked)
        }
        TypeRow::Choice { first, second } => {
            let left = walk(scope, types, counts, state, spot, first, body)?;
            let right = walk(scope, types, counts, state, spot, second, body)?;
            let walked = TypeRow::Choice {
                first: left,
                second: right,
            };
            push_row(types, counts, spot, walked)
        }
        TypeRow::Repetition { part } => {
            let inner = walk(scope, types, counts, state, spot, part, body)?;
            push_row(types, counts, spot, TypeRow::Repetition { part: inner })
        }
        _ => type_under(scope, types, counts, state, row, body),
    }
}

/// The choice of the branches that are reached.
#[cycle(typing)]
fn type_match(
    scope: &Scope<'_>,
    types: &mut [TypeRow],
    counts: &mut Counts,
    state: &mut State,
    at: u32,
    subject: u32,
    from: u32,
    count: u32,
    otherwise: u32,
) -> Result<u32, TypeFault>
    requires ready { Standing (program_rows scope.now.program.now) types.old counts.old state.old }
    requires room { Room (program_rows scope.now.program.now) state.old at }
    requires subject { subject < at }
    requires otherwise { otherwise < at }
    requires arms { bodies_below at (take count (drop from (program_rows scope.now.program.now).arms)) ≡ true }
    requires within { from + count ≤ length (program_rows scope.now.program.now).arms }
    ensures types { Gave (kind_typed (program_rows scope.now.program.now) scope.now.function state.old.variables.items at (Match subject from count otherwise) (now types.old counts.old state.old)) result (now types.new counts.new state.new) }
    ensures stays { Stays types.old counts.old state.old types.new counts.new state.new }
{
    let spot = Spot {
        at,
        function: scope.function,
    };
    let item = type_expression(scope, types, counts, state, subject)?;
    if !is_item(types[item as usize]) {
        return Err(spot.fault(Reason::WrongKind));
    }
    let arms = scope.arms(from, count);
    let mut named = ArrayVec::new();
    let mut branches = ArrayVec::new();
    type_branches(
        scope,
        types,
        counts,
        state,
        at,
        item,
        arms,
        otherwise,
        &mut named,
        &mut branches,
    )?;
    join(types, counts, spot, branches.as_slice())
}

/// The types of the branches that are reached, behind those of earlier arms, which have named these tags.
#[cycle(typing)]
fn type_branches(
    scope: &Scope<'_>,
    types: &mut [TypeRow],
    counts: &mut Counts,
    state: &mut State,
    at: u32,
    subject: u32,
    arms: &[Arm],
    otherwise: u32,
    named: &mut ArrayVec<u32, 128>,
    branches: &mut ArrayVec<u32, 129>,
) -> Result<(), TypeFault>
    requires ready { Standing (program_rows scope.now.program.now) types.old counts.old state.old }
    requires room { Room (program_rows scope.now.program.now) state.old at }
    requires subject { subject < counts.old.all }
    requires otherwise { otherwise < at }
    requires arms { bodies_below at arms.now ≡ true }
    requires fits { patterns_fit arms.now ≡ true }
    requires names { length named.old.items + length arms.now ≤ 128 }
    requires branches { length branches.old.items + length arms.now ≤ 128 }
    ensures branches { Adds (branched (spot_at scope.now.function at) (typed (program_rows scope.now.program.now) scope.now.function) state.old.variables.items subject otherwise arms.now named.old.items (now types.old counts.old state.old)) result branches.old.items branches.new.items (now types.new counts.new state.new) }
    ensures stays { Stays types.old counts.old state.old types.new counts.new state.new }
{
    let spot = Spot {
        at,
        function: scope.function,
    };
    match arms {
        [] => {
            let last = type_expression(scope, types, counts, state, otherwise)?;
            branches.push(last);
            Ok(())
        }
        [arm, later @ ..] => {
            let item = types[subject as usize];
            match judge(named.as_slice(), item, *arm) {
                Taking::Takes => {
                    let taken = type_under(scope, types, counts, state, subject, arm.body)?;
                    branches.push(taken);
                    Ok(())
                }
                Taking::Passes => {
                    type_branches(
                        scope, types, counts, state, at, subject, later, otherwise, named, branches,
                    )
                }
                Taking::MayTake(tag) => {
                    let narrow = narrowed(tag, item);
                    let variable = push_row(types, counts, spot, narrow)?;
                    let taken = type_under(scope, types, counts, state, variable, arm.body)?;
                    branches.push(taken);
                    named.insert(0, tag);
                    type_branches(
                        scope, types, counts, state, at, subject, later, otherwise, named, branches,
                    )
                }
            }
        }
    }
}
