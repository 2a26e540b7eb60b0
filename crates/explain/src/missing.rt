use rows::{Expression, Function};
use session::Session;
use std::alloc::{AllocError, Global};
use types::{TypeRows, content};

/// Which type is missing.
#[derive(Clone, Copy)]
enum Named {
    Content,
    Parameter,
    Result,
    Input,
    Target,
}

/// Which type is missing where a row is to blame for it, and what is wrong with it.
pub(crate) fn missing_type(
    alloc: Global,
    session: &Session,
    row: u32,
) -> Result<String, AllocError> {
    let types = session.declared_types();
    match missing(session, &types, row) {
        Some((named, root)) => {
            let whose = named.words(alloc, row)?;
            let wrong = wrong_with(alloc, &types, root)?;
            format!(in alloc; "{whose} is type row {root}, which {wrong}.")
        }
        None => format!(in alloc; "A type that row {row} names is missing."),
    }
}

/// The type that is missing and the row that is named for it. They are looked for in the order of the check.
fn missing(session: &Session, types: &TypeRows, row: u32) -> Option<(Named, u32)> {
    if types.first_unrooted().is_some() {
        return content(types.row(row as usize)).map(|inner| (Named::Content, inner));
    }
    let of_function = session
        .function(row)
        .and_then(|function| missing_of(types, function));
    let input = session
        .query()
        .filter(|query| row == 0 && !types.is_root(query.input))
        .map(|query| (Named::Input, query.input));
    let target = match session.expression(row) {
        Some(Expression::As { target, .. }) => Some((Named::Target, target)),
        _ => None,
    };
    of_function.or(input).or(target)
}

/// The type of a function that is missing.
fn missing_of(types: &TypeRows, function: Function) -> Option<(Named, u32)> {
    if !types.is_root(function.parameter) {
        Some((Named::Parameter, function.parameter))
    } else if !types.is_root(function.result) {
        Some((Named::Result, function.result))
    } else {
        None
    }
}

/// Why a row is no root.
fn wrong_with(alloc: Global, types: &TypeRows, root: u32) -> Result<String, AllocError> {
    match types.as_slice().iter().position(|row| row.owns(root)) {
        Some(owner) => format!(in alloc; "is a part of type row {owner}"),
        None => format!(in alloc; "is not there"),
    }
}

impl Named {
    /// What a row names, in words.
    fn words(self, alloc: Global, row: u32) -> Result<String, AllocError> {
        match self {
            Named::Content => format!(in alloc; "The content of type row {row}"),
            Named::Parameter => format!(in alloc; "The parameter of function {row}"),
            Named::Result => format!(in alloc; "The result of function {row}"),
            Named::Input => format!(in alloc; "The type of the query's input"),
            Named::Target => format!(in alloc; "The type of the \"as\" in expression row {row}"),
        }
    }
}
