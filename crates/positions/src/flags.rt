ghost use Rattle.std.specs.Prelude.{◌≡◌, length, replicate, slice_set};
ghost use Rattle.positions.specs.Below.{flag};
ghost use Rattle.positions.specs.Life.{given};

use crate::giving::{give, put};
use rows::TypeRow;

/// A mark for each row of a table.
// Marks are looked up row by row and given down from row to row by `give`, which tops share: so they are bytes in an array, not bits of a relation.
#[derive(Clone, Copy)]
pub struct Flags {
    pub marks: [bool; 512],
    ghost long: { length marks ≡ 512 },
}

impl Flags {
    /// The same mark for every row.
    pub fn all(marked: bool) -> Flags
        ensures { result.marks ≡ replicate 512 marked }
    {
        Flags {
            marks: [marked; 512],
        }
    }

    /// Whether a row is marked; past the end none is.
    pub fn has(&self, row: u32) -> bool
        ensures { result ≡ flag self.now.marks row }
    {
        self.marks.get(row as usize).copied().unwrap_or(false)
    }

    /// Marks a row or clears it, if there is such a row.
    pub fn set(&mut self, row: u32, marked: bool)
        ensures { self.new.marks ≡ slice_set self.old.marks row marked }
    {
        put(&mut self.marks, row, marked);
    }

    /// Gives the left part of a sequence the first mark, and every other part of the row the second.
    pub(crate) fn give(&mut self, row: TypeRow, left: bool, other: bool)
        ensures { self.new.marks ≡ given row left other self.old.marks }
    {
        give(row, left, other, &mut self.marks);
    }
}
