ghost use Rattle.types.specs.Asking.{RowAndRoot, TellsSubtype};
ghost use Rattle.types.specs.Tables.{rows_of, Exactly};
ghost use Rattle.types.specs.Worked.{WorkedTypes};

use crate::search::is_subtype;
use forest::Fault;
use positions::ask;
use types::TypeRows;

/// Whether a row and a root are there to be compared.
fn are_there(types: &TypeRows, row: u32, root: u32) -> bool
    ensures { Exactly result (RowAndRoot (rows_of types.now) row root) }
{
    row < types.count && types.is_root(root)
}

/// Whether every forest of a row belongs to a root, in a table whose contents are roots and whose roots are one-way; other questions are refused.
pub fn fits(types: TypeRows, row: u32, root: u32) -> Result<bool, Fault>
    ensures answer { TellsSubtype (rows_of types) row root result }
    ensures worked { WorkedTypes }
{
    let there = are_there(&types, row, root);
    let positions = ask(types, there)?;
    Ok(is_subtype(&positions, row, root))
}
