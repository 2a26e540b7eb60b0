use rows::{Expression, TypeRow};

/// What an expression asks of the kind of its parts, where the part that was typed last does not have it.
pub(crate) fn demand(expression: Option<Expression>, last: Option<TypeRow>) -> &'static str {
    match expression {
        Some(Expression::If { .. }) => "the condition has to be a Boolean",
        Some(Expression::Match { .. }) => {
            "the subject has to be one item, a scalar or an element"
        }
        Some(Expression::Add { .. }) => "each side has to be an Integer",
        Some(Expression::Equal { .. }) if last.is_some_and(|row| is_scalar(row)) => {
            "the right side has to be of the same kind as the left side"
        }
        Some(Expression::Equal { .. }) => {
            "each side has to be a scalar, an Integer, a String or a Boolean"
        }
        Some(Expression::Children { .. }) => "what has children has to be an element",
        _ => "a type of another kind is asked for",
    }
}

/// Whether a type is one scalar.
fn is_scalar(row: TypeRow) -> bool {
    matches!(row, TypeRow::Integer | TypeRow::String | TypeRow::Boolean)
}
