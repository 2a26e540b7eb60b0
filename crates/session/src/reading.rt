ghost use Rattle.std.specs.Prelude.{◌≡◌, length, slice_get};
ghost use Rattle.session.specs.Calls.{tables};

use crate::session::Session;
use rows::{Expression, Function, Query};

impl Session {
    /// The query, once it is set.
    pub fn query(&self) -> Option<Query>
        ensures { result ≡ (tables self.now).program.query }
    {
        self.program.query
    }

    /// The function of that number, if it is there.
    pub fn function(&self, number: u32) -> Option<Function>
        ensures { result ≡ slice_get (tables self.now).program.functions number }
    {
        self.program.functions.rows.get(number as usize)
    }

    /// The number of functions.
    pub fn function_count(&self) -> u32
        ensures { result ≡ length (tables self.now).program.functions }
    {
        self.program.function_count()
    }

    /// The expression row of that number, if it is there.
    pub fn expression(&self, row: u32) -> Option<Expression>
        ensures { result ≡ slice_get (tables self.now).program.expressions row }
    {
        self.program.expressions.get(row as usize)
    }
}
