ghost use Rattle.std.specs.Prelude.{◌≡◌, ◌<◌, true, false, [], ◌∷◌, ◌++◌, length, take};
ghost use Rattle.rows.specs.TypeTables.{types_lawful, free};

use crate::counts::Counts;
use rows::TypeRow;
use types::TypeRows;

/// The type rows: the declared ones keep the rules on parts. They lie in a plain array and not in a `Table`, since the counts
/// have to stand in a record of their own, which the guard of a check will borrow alone (docs/DECISIONS.md).
#[derive(Drop)]
pub struct TypeTable {
    pub(crate) rows: [TypeRow; 512],
    pub(crate) counts: Counts,
    ghost long: { length rows ≡ 512 },
    ghost lawful: { types_lawful [] (take counts.declared rows) ≡ true },
}

impl TypeTable {
    ghost use Rattle.rows.specs.TypeRows.{type_fits, twice};
    ghost use Rattle.session.specs.Tables.{declared_of};
    ghost use Rattle.types.specs.Tables.{rows_of};

    pub(crate) fn new() -> TypeTable
        ensures { declared_of result ≡ [] }
    {
        TypeTable {
            rows: [TypeRow::EmptyChoice; 512],
            counts: Counts {
                declared: 0,
                all: 0,
            },
        }
    }

    /// How many rows are declared.
    pub(crate) fn declared(&self) -> u32
        ensures count { result ≡ self.now.counts.declared }
        ensures long { result ≡ length (declared_of self.now) }
    {
        self.counts.declared
    }

    /// The declared rows, as a table of types.
    pub(crate) fn declared_rows(&self) -> TypeRows
        ensures { rows_of result ≡ declared_of self.now }
    {
        TypeRows {
            rows: self.rows,
            count: self.counts.declared,
        }
    }

    /// Whether no declared row has a part of this one.
    pub(crate) fn is_free(&self, row: TypeRow) -> bool
        ensures { result ≡ free (declared_of self.now) row }
    {
        let declared = &self.rows[..self.counts.declared as usize];
        declared.iter().all(|other| !row.shares(*other))
    }

    /// One declared row more, over the first of those that a check made.
    pub(crate) fn push(&mut self, row: TypeRow)
        requires space { self.old.counts.declared < 512 }
        requires fits { type_fits self.old.counts.declared row ≡ true }
        requires once { twice row ≡ false }
        requires free { free (declared_of self.old) row ≡ true }
        ensures { declared_of self.new ≡ declared_of self.old ++ (row ∷ []) }
    {
        let place = self.counts.declared;
        self.rows[place as usize] = row;
        self.counts = Counts {
            declared: place + 1,
            all: self.counts.all.max(place + 1),
        };
    }

    /// Drops the rows that a check made.
    pub(crate) fn drop_made(&mut self)
        ensures declared { declared_of self.new ≡ declared_of self.old }
        ensures all { self.new.counts.all ≡ self.new.counts.declared }
    {
        self.counts.all = self.counts.declared;
    }

    pub(crate) fn clear(&mut self)
        ensures { declared_of self.new ≡ [] }
    {
        self.counts = Counts {
            declared: 0,
            all: 0,
        };
    }
}
