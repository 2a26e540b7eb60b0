ghost use Rattle.std.specs.Prelude.{◌≡◌, ◌<◌, ◌≤◌, [], ◌∷◌, ◌++◌, length};
ghost use Rattle.session.specs.Bodies.{body_set};

use crate::table::Table;
use rows::Function;

/// The functions. They are a table of their own: setting a body is a call of this table alone, so that no other part of a session can
/// change with it. The project asks for that form.
#[derive(Drop)]
pub struct FunctionTable {
    pub(crate) rows: Table<Function, 32>,
    ghost few: { length rows.items ≤ 32 },
}

impl FunctionTable {
    pub(crate) fn push(&mut self, row: Function)
        requires { length self.old.rows.items < 32 }
        ensures { self.new.rows.items ≡ self.old.rows.items ++ (row ∷ []) }
    {
        self.rows.push(row);
    }

    /// Sets the body of one function; every other function stays.
    pub(crate) fn set_body(&mut self, function: u32, row: u32)
        requires { function < length self.old.rows.items }
        ensures { self.new.rows.items ≡ body_set self.old.rows.items function row }
    {
        let place = function as usize;
        let unset = self.rows.as_slice()[place];
        self.rows.set(
            place,
            Function {
                body: Some(row),
                ..unset
            },
        );
    }
}
