ghost use Rattle.std.specs.Prelude.{◌≡◌, cond, length, Ok, Err};
ghost use Rattle.forest.specs.Faults.{faulted};
ghost use Rattle.types.specs.Tables.{rows_of};
ghost use Rattle.session.specs.Lawful.{Lawful};
ghost use Rattle.session.specs.Calls.{tables, empty_tables, settled, add_text, add_type, add_function, add_arm, add_expression, set_body, set_query, clear, applied, answered};

use crate::program::Program;
use crate::session::{Phase, Session};
use crate::type_table::TypeTable;
use forest::{Fault, Reason};
use rows::{
    Arm, EXPRESSIONS, Expression, FUNCTIONS, Function, Query, RawArm, RawExpression, RawType,
    TYPE_ROWS, TypeRow,
};
use types::TypeRows;

const SESSION: u8 = 1;

const ARMS: u32 = 128;

/// A call that was accepted. The project asks that one match, on it and on how the session stands, decide what the call drops; so
/// calls that drop the same have names of their own here.
#[derive(Clone, Copy, PartialEq, Eq, Debug)]
pub(crate) enum Accepted {
    Add,
    Body,
    Query,
    Clear,
}

impl Session {
    /// A session with no rows, open.
    pub fn new() -> Session
        ensures { tables result ≡ empty_tables }
    {
        Session {
            phase: Phase::Open,
            types: TypeTable::new(),
            program: Program::new(),
        }
    }

    /// The number of declared type rows. The rows keep the rules.
    pub fn type_count(&self) -> u32
        ensures value { result ≡ length (tables self.now).types }
        ensures lawful { Lawful (tables self.now) }
    {
        self.types.declared()
    }

    /// The declared type rows.
    pub fn declared_types(&self) -> TypeRows
        ensures { rows_of result ≡ (tables self.now).types }
    {
        self.types.declared_rows()
    }

    /// Puts bytes behind the text, and answers the place where they begin.
    pub fn add_text(&mut self, text: &[u8]) -> Result<u32, Fault>
        ensures { (result, tables self.new) ≡ applied (tables self.old) (add_text text.now) }
    {
        let place = self.program.room().bytes;
        self.program
            .push_text(text)
            .map_err(|_| refusal(Reason::TableFull, place))?;
        self.settle(Accepted::Add);
        Ok(place)
    }

    /// Declares a type row.
    pub fn add_type(&mut self, row: RawType) -> Result<u32, Fault>
        ensures { (result, tables self.new) ≡ applied (tables self.old) (add_type row) }
    {
        let place = self.types.declared();
        allow(place < TYPE_ROWS, Reason::TableFull, place)?;
        let row = TypeRow::try_from(row).map_err(|reason| refusal(reason, place))?;
        allow(row.fits(place), Reason::FieldOutOfRange, place)?;
        allow(!row.names_twice(), Reason::PartTaken, place)?;
        allow(self.types.is_free(row), Reason::PartTaken, place)?;
        self.types.push(row);
        self.settle(Accepted::Add);
        Ok(place)
    }

    /// Adds a function, which has no body yet.
    pub fn add_function(&mut self, parameter: u32, result_type: u32) -> Result<u32, Fault>
        ensures { (result, tables self.new) ≡ applied (tables self.old) (add_function parameter result_type) }
    {
        let place = self.program.function_count();
        allow(place < FUNCTIONS, Reason::TableFull, place)?;
        let function = Function {
            parameter,
            result: result_type,
            body: None,
        };
        allow(function.fits(), Reason::FieldOutOfRange, place)?;
        self.program.push_function(function);
        self.settle(Accepted::Add);
        Ok(place)
    }

    /// Adds an arm.
    pub fn add_arm(&mut self, arm: RawArm) -> Result<u32, Fault>
        ensures { (result, tables self.new) ≡ applied (tables self.old) (add_arm arm) }
    {
        let room = self.program.room();
        let place = room.arms;
        allow(place < ARMS, Reason::TableFull, place)?;
        let arm = Arm::try_from(arm).map_err(|reason| refusal(reason, place))?;
        allow(arm.fits(room.expressions), Reason::FieldOutOfRange, place)?;
        self.program.push_arm(arm);
        self.settle(Accepted::Add);
        Ok(place)
    }

    /// Adds an expression.
    pub fn add_expression(&mut self, row: RawExpression) -> Result<u32, Fault>
        ensures { (result, tables self.new) ≡ applied (tables self.old) (add_expression row) }
    {
        let room = self.program.room();
        let place = room.expressions;
        allow(place < EXPRESSIONS, Reason::TableFull, place)?;
        let row = Expression::try_from(row).map_err(|reason| refusal(reason, place))?;
        allow(row.fits(room), Reason::FieldOutOfRange, place)?;
        self.program.push_expression(row);
        self.settle(Accepted::Add);
        Ok(place)
    }

    /// Sets a function's body, in place of the one that it had.
    pub fn set_body(&mut self, function: u32, row: u32) -> Result<(), Fault>
        ensures { (answered result, tables self.new) ≡ applied (tables self.old) (set_body function row) }
    {
        let there = function < self.program.function_count()
            && row < self.program.room().expressions;
        allow(there, Reason::FieldOutOfRange, 0)?;
        self.program.set_body(function, row);
        self.settle(Accepted::Body);
        Ok(())
    }

    /// Sets the query, in place of the one that there was.
    pub fn set_query(&mut self, query: Query) -> Result<(), Fault>
        ensures { (answered result, tables self.new) ≡ applied (tables self.old) (set_query query) }
    {
        allow(
            query.fits(self.program.room().expressions),
            Reason::FieldOutOfRange,
            0,
        )?;
        self.program.set_query(query);
        self.settle(Accepted::Query);
        Ok(())
    }

    /// Makes the session new.
    pub fn clear(&mut self)
        ensures { (Ok 0, tables self.new) ≡ applied (tables self.old) clear }
    {
        self.settle(Accepted::Clear);
    }

    /// What an accepted call drops: the rows that a check made, or all rows.
    fn settle(&mut self, accepted: Accepted)
        ensures { tables self.new ≡ settled accepted (tables self.old) }
    {
        match (self.phase, accepted) {
            (_, Accepted::Clear) => {
                self.types.clear();
                self.program.clear();
                self.phase = Phase::Open;
            }
            (Phase::Open, Accepted::Add | Accepted::Body | Accepted::Query) => {}
            (Phase::Checked, Accepted::Add | Accepted::Body | Accepted::Query) => {
                self.types.drop_made();
                self.phase = Phase::Open;
            }
        }
    }
}

/// Refuses what the rules do not allow.
pub(crate) fn allow(allowed: bool, reason: Reason, row: u32) -> Result<(), Fault>
    ensures { result ≡ cond allowed (Ok tt) (Err (faulted reason 1 row)) }
{
    if allowed {
        Ok(())
    } else {
        Err(refusal(reason, row))
    }
}

/// A refusal by the session, at a row.
fn refusal(reason: Reason, row: u32) -> Fault
    ensures { result ≡ faulted reason 1 row }
{
    Fault::new(reason, SESSION, row)
}
