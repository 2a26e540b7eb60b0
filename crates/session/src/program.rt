ghost use Rattle.std.specs.Prelude.{◌≡◌, ◌+◌, ◌<◌, ◌≤◌, ◌↔◌, true, length, IsOk, OnOk, OnErr};
ghost use Rattle.forest.specs.Forests.{bytes_lawful};
ghost use Rattle.session.specs.Rules.{expressions_lawful, arms_lawful, matches_lawful, function_right, functions_lawful, query_lawful};

use crate::function_table::FunctionTable;
use crate::table::Table;
use arrayvec::CapacityError;
use rows::{Arm, Expression, Function, Query, Room};

/// Expressions, the arms of all matches, functions, the bytes of all String constants, and the query. Whatever one of them names
/// of another is there.
#[derive(Drop)]
pub struct Program {
    pub(crate) expressions: Table<Expression, 512>,
    pub(crate) arms: Table<Arm, 128>,
    pub(crate) functions: FunctionTable,
    pub(crate) text: Table<u8, 4096>,
    pub(crate) query: Option<Query>,
    ghost expressions_few: { length expressions.items ≤ 512 },
    ghost arms_few: { length arms.items ≤ 128 },
    ghost text_few: { length text.items ≤ 4096 },
    ghost text_bytes: { bytes_lawful text.items ≡ true },
    ghost expressions_known: { expressions_lawful 0 (length arms.items) (length text.items) expressions.items ≡ true },
    ghost arms_known: { arms_lawful (length expressions.items) arms.items ≡ true },
    ghost matches_known: { matches_lawful 0 arms.items expressions.items ≡ true },
    ghost functions_known: { functions_lawful (length expressions.items) functions.rows.items ≡ true },
    ghost query_known: { query_lawful (length expressions.items) query ≡ true },
}

impl Program {
    ghost use Rattle.rows.specs.Arms.{arm_fits};
    ghost use Rattle.rows.specs.Expressions.{expression_fits};
    ghost use Rattle.rows.specs.Functions.{query_fits};
    ghost use Rattle.session.specs.Tables.{program_rows, room_of, no_rows, with_expression, with_arm, with_function, with_text, with_body_set, with_query};

    pub(crate) fn new() -> Program
        ensures { program_rows result ≡ no_rows }
    {
        Program {
            expressions: Table::new(),
            arms: Table::new(),
            functions: FunctionTable { rows: Table::new() },
            text: Table::new(),
            query: None,
        }
    }

    /// What is there for a row to name.
    pub(crate) fn room(&self) -> Room
        ensures { result ≡ room_of (program_rows self.now) }
    {
        Room {
            expressions: self.expressions.len() as u32,
            arms: self.arms.len() as u32,
            bytes: self.text.len() as u32,
        }
    }

    pub(crate) fn function_count(&self) -> u32
        ensures { result ≡ length (program_rows self.now).functions }
    {
        self.functions.rows.len() as u32
    }

    pub(crate) fn push_expression(&mut self, row: Expression)
        requires space { length (program_rows self.old).expressions < 512 }
        requires fits { expression_fits (room_of (program_rows self.old)) row ≡ true }
        ensures { program_rows self.new ≡ with_expression (program_rows self.old) row }
    {
        self.expressions.push(row);
    }

    pub(crate) fn push_arm(&mut self, row: Arm)
        requires space { length (program_rows self.old).arms < 128 }
        requires fits { arm_fits (length (program_rows self.old).expressions) row ≡ true }
        ensures { program_rows self.new ≡ with_arm (program_rows self.old) row }
    {
        self.arms.push(row);
    }

    pub(crate) fn push_function(&mut self, row: Function)
        requires space { length (program_rows self.old).functions < 32 }
        requires fits { function_right (length (program_rows self.old).expressions) row ≡ true }
        ensures { program_rows self.new ≡ with_function (program_rows self.old) row }
    {
        self.functions.push(row);
    }

    /// Puts bytes behind the text, if there is room for all of them.
    pub(crate) fn push_text(&mut self, text: &[u8]) -> Result<(), CapacityError>
        ensures room { IsOk result ↔ (length (program_rows self.old).text + length text.now ≤ 4096) }
        ensures ok { OnOk result (program_rows self.new ≡ with_text (program_rows self.old) text.now) }
        ensures err { OnErr result (self.new ≡ self.old) }
    {
        self.text.try_extend_from_slice(text)
    }

    pub(crate) fn set_body(&mut self, function: u32, row: u32)
        requires function { function < length (program_rows self.old).functions }
        requires row { row < length (program_rows self.old).expressions }
        ensures { program_rows self.new ≡ with_body_set (program_rows self.old) function row }
    {
        self.functions.set_body(function, row);
    }

    pub(crate) fn set_query(&mut self, query: Query)
        requires { query_fits (length (program_rows self.old).expressions) query ≡ true }
        ensures { program_rows self.new ≡ with_query (program_rows self.old) query }
    {
        self.query = Some(query);
    }

    /// Takes all rows away: the counts alone go to 0, so that a full program costs no more than an empty one.
    pub(crate) fn clear(&mut self)
        ensures { program_rows self.new ≡ no_rows }
    {
        self.expressions.clear();
        self.arms.clear();
        self.functions.rows.clear();
        self.text.clear();
        self.query = None;
    }
}
