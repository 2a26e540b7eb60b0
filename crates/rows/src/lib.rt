#![tactic(auto)]

mod arm;
mod expression;
mod function;
mod type_row;

pub use arm::{Arm, Pattern, RawArm};
pub use expression::{EXPRESSIONS, Expression, RawExpression, Room};
pub use function::{FUNCTIONS, Function, Query};
pub use type_row::{RawType, TYPE_ROWS, TypeRow};
