ghost use Rattle.std.specs.Prelude.{◌≡◌, ℕ, ◌≤◌, Some, length, true};
ghost use Rattle.rows.specs.TypeRows.{owns};
ghost use Rattle.types.specs.Parts.{row as row_at, content as row_content, Root, Rooted, Lawful};
ghost use Rattle.types.specs.Tables.{rows_of, Exactly, Lowest};

use crate::type_rows::TypeRows;
use rows::TypeRow;

impl TypeRows {
    /// The rows. They keep the rules on parts.
    pub fn as_slice(&self) -> &[TypeRow]
        ensures rows { result.now ≡ rows_of self.now }
        ensures few { length result.now ≤ 512 }
        ensures lawful { Lawful (rows_of self.now) }
    {
        &self.rows[..self.count as usize]
    }

    /// Row `row`; past the end the empty choice, which has no forest.
    pub fn row(&self, row: usize) -> TypeRow
        ensures { result ≡ row_at (rows_of self.now) row }
    {
        self.as_slice()
            .get(row)
            .copied()
            .unwrap_or(TypeRow::EmptyChoice)
    }

    /// Whether a row is there and is no row's part.
    pub fn is_root(&self, row: u32) -> bool
        ensures { Exactly result (Root (rows_of self.now) row) }
    {
        row < self.count && !self.is_part(row)
    }

    /// The lowest row whose content is missing or no root.
    pub fn first_unrooted(&self) -> Option<u32>
        ensures { Lowest result (rows_of self.now) (Rooted (rows_of self.now)) }
    {
        let row = self
            .as_slice()
            .iter()
            .position(|row| !self.is_rooted(*row))?;
        Some(row as u32)
    }

    /// Whether some row owns this one.
    fn is_part(&self, row: u32) -> bool
        ensures { Exactly result ((s : ℕ) × (owns (row_at (rows_of self.now) s) row ≡ true)) }
    {
        self.as_slice().iter().any(|owner| owner.owns(row))
    }

    /// Whether a row names no content, or a root.
    fn is_rooted(&self, row: TypeRow) -> bool
        ensures { Exactly result ((c : ℕ) → row_content row ≡ Some c → Root (rows_of self.now) c) }
    {
        content(row).is_none_or(|inner| self.is_root(inner))
    }
}

/// The content of an element row.
pub fn content(row: TypeRow) -> Option<u32>
    ensures { result ≡ row_content row }
{
    match row {
        TypeRow::Element { content, .. } | TypeRow::AnyElement { content } => Some(content),
        _ => None,
    }
}
