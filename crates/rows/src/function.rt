ghost use Rattle.std.specs.Prelude.{◌≡◌};
ghost use Rattle.rows.specs.Functions.{function_fits, query_fits};

use crate::type_row::TYPE_ROWS;

/// So many functions.
pub const FUNCTIONS: u32 = 32;

/// A function: the types of its parameter and its result, which need not be there yet, and its body once it is set.
#[derive(Clone, Copy, PartialEq, Eq, Debug, Default)]
pub struct Function {
    pub parameter: u32,
    pub result: u32,
    pub body: Option<u32>,
}

impl Function {
    /// Whether both types are in range.
    pub fn fits(self) -> bool
        ensures { result ≡ function_fits self }
    {
        self.parameter < TYPE_ROWS && self.result < TYPE_ROWS
    }
}

/// What is run: an expression row, on input of a type that need not be there yet.
#[derive(Clone, Copy, PartialEq, Eq, Debug)]
pub struct Query {
    pub input: u32,
    pub row: u32,
}

impl Query {
    /// Whether the type is in range and the row among `expressions` rows.
    pub fn fits(self, expressions: u32) -> bool
        ensures { result ≡ query_fits expressions self }
    {
        self.input < TYPE_ROWS && self.row < expressions
    }
}
