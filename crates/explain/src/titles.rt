use rows::Expression;

/// What kind of expression a row is, in a word or two.
pub(crate) fn title(expression: Expression) -> &'static str {
    match expression {
        Expression::Error => "error",
        Expression::Integer { .. } => "Integer",
        Expression::Boolean { .. } => "Boolean",
        Expression::String { .. } => "String",
        Expression::Variable { .. } => "variable",
        Expression::Element { .. } => "element",
        Expression::Sequence { .. } => "sequence",
        Expression::Empty => "empty",
        Expression::If { .. } => "if",
        Expression::Let { .. } => "let",
        Expression::For { .. } => "for",
        Expression::Match { .. } => "match",
        Expression::Call { .. } => "call",
        Expression::Add { .. } => "sum",
        Expression::Equal { .. } => "equality",
        Expression::IsEmpty { .. } => "is empty",
        Expression::Count { .. } => "count",
        Expression::Children { .. } => "children",
        Expression::As { .. } => "as",
    }
}
