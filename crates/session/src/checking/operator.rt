ghost use Rattle.std.specs.Prelude.{◌≡◌};
ghost use Rattle.session.specs.Operators.{left_kind, both_kinds, operated};

use crate::checking::kinds::{is_integer, is_scalar};
use rows::TypeRow;
use types::overlap;

/// The kinds of rows with two parts that are typed one after the other.
#[derive(Clone, Copy)]
pub(crate) enum Operator {
    Sequence,
    Add,
    Equal,
}

impl Operator {
    /// Whether the first part may have this type.
    pub(crate) fn takes_first(self, first: TypeRow) -> bool
        ensures { result ≡ left_kind self first }
    {
        match self {
            Operator::Sequence => true,
            Operator::Add => is_integer(first),
            Operator::Equal => is_scalar(first),
        }
    }

    /// Whether the parts may have these types, where the first may have its type.
    pub(crate) fn takes_both(self, first: TypeRow, second: TypeRow) -> bool
        ensures { result ≡ both_kinds self first second }
    {
        match self {
            Operator::Sequence => true,
            Operator::Add => is_integer(second),
            Operator::Equal => overlap(first, second),
        }
    }

    /// What is made of the parts.
    pub(crate) fn row(self, first: u32, second: u32) -> TypeRow
        ensures { result ≡ operated self first second }
    {
        match self {
            Operator::Sequence => TypeRow::Sequence { first, second },
            Operator::Add => TypeRow::Integer,
            Operator::Equal => TypeRow::Boolean,
        }
    }
}
