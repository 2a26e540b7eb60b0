ghost use Rattle.std.specs.Prelude.{◌≡◌, ◌+◌, ◌≤◌, length, take, drop, slice_get};
ghost use Rattle.typing.specs.Typing.{expression_at};
ghost use Rattle.session.specs.Tables.{program_rows};

use crate::program::Program;
use arrayvec::ArrayVec;
use rows::{Arm, Expression, Function};

/// What is being typed: the rows of a program, in a function or in the query.
#[derive(Clone, Copy)]
pub(crate) struct Scope<'a> {
    pub(crate) program: &'a Program,
    pub(crate) function: Option<u32>,
}

impl Scope<'_> {
    /// The expression row at a place; past the end an error row.
    pub(crate) fn expression(&self, at: u32) -> Expression
        ensures { result ≡ expression_at (program_rows self.now.program.now) at }
    {
        let rows = self.program.expressions.as_slice();
        rows.get(at as usize).copied().unwrap_or(Expression::Error)
    }

    /// The function of a number, if there is one.
    pub(crate) fn callee(&self, number: u32) -> Option<Function>
        ensures { result ≡ slice_get (program_rows self.now.program.now).functions number }
    {
        let rows = self.program.functions.rows.as_slice();
        rows.get(number as usize).copied()
    }

    /// The arms that a match names.
    pub(crate) fn arms(&self, from: u32, count: u32) -> &[Arm]
        requires { from + count ≤ length (program_rows self.now.program.now).arms }
        ensures { result.now ≡ take count (drop from (program_rows self.now.program.now).arms) }
    {
        let rows = self.program.arms.as_slice();
        &rows[from as usize..][..count as usize]
    }
}

/// The rows of the types of the variables, by number, and whether typing has come to an error row.
#[derive(Drop)]
pub(crate) struct State {
    pub(crate) variables: ArrayVec<u32, 512>,
    pub(crate) error: bool,
}

impl State {
    /// The type of a variable, if it is bound.
    pub(crate) fn variable(&self, number: u32) -> Option<u32>
        ensures { result ≡ slice_get self.now.variables.items number }
    {
        let rows = self.variables.as_slice();
        rows.get(number as usize).copied()
    }
}
